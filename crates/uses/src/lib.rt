// Uses of the library, as a caller writes them: requests made, read back and sent on, responses written and read, errors found, documents kept.
#![tactic(auto)]

mod answers;
mod aws_bodies;
mod columns;
mod documents;
mod errors;
mod gateway;
mod get_item;
mod get_object;
mod laws;
pub mod lenient_json;
mod recovering;
mod requests;
mod responses;
mod routing;
mod serving;
#[cfg(test)]
mod tests;
mod update_configuration;

pub use answers::{Answered, body_answer, rest_answer};
pub use aws_bodies::{aws_body, aws_request, aws_structure};
pub use columns::two_requests;
pub use documents::{structure_in, through_document};
pub use errors::{error_place, error_registry};
pub use gateway::{call_of, request_of_call};
pub use get_item::{get_item_of_job, get_item_request};
pub use get_object::{get_object_request, get_object_table, get_object_writes};
pub use laws::{calls_keep_inputs, requests_tell};
pub use recovering::input_of;
pub use requests::{job_request, lenient_request, rest_request, rpc_request};
pub use responses::{output_of, text_named};
pub use routing::{object_routes, operation_of};
pub use serving::rest_response;
pub use update_configuration::{update_configuration_request, update_configuration_table};
