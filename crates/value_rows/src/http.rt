// Calls of `smithy_http`.
mod endpoints;
mod headers;
mod lists;
mod messages;

use serde_json::Value;
use smithy_types::Text;
use std::alloc::Global;
use test_rows::Failed;

/// What a call of `smithy_http` answers, `None` where it is another's.
pub fn answer(alloc: Global, call: &str, given: &Value) -> Result<Option<Text>, Failed> {
    match call {
        "Headers" => headers::headers(alloc, given).map(Some),
        "Request" => messages::request(alloc, given).map(Some),
        "Request::from_parts" => messages::request_of_parts(alloc, given).map(Some),
        "Request::with_method" => messages::request_with_method(alloc, given).map(Some),
        "Response::new" => messages::response(alloc, given).map(Some),
        "set_endpoint" => endpoints::set(alloc, given).map(Some),
        "Endpoint" => endpoints::parts(alloc, given).map(Some),
        "HttpError" => endpoints::refusals(alloc).map(Some),
        _ => lists::answer(alloc, call, given),
    }
}
