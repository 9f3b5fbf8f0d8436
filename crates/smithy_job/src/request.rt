// The request that a job has.
ghost use Rattle.std.specs.Prelude.{◌≡◌, codes, option_map, IfSome, IsTrue};
ghost use Rattle.serde_json.specs.Find.{get};
ghost use Rattle.smithy_types.specs.Grammars.{is_token};
ghost use Rattle.smithy_json.specs.views.JsonView.{view};
ghost use Rattle.smithy_model.specs.Reads.{Reads};
ghost use Rattle.smithy_job.specs.Requests.{method_in, bytes_given, request_with, request_in, request_given};

use crate::response::{body_of, headers_of};
use smithy_http::{Headers, Request};
use smithy_json::JsonValue;
use smithy_model::{JobError, text_of};
use smithy_types::{Blob, Text, is_token};
use std::alloc::Global;

/// The method, a token. None where there is none. Takes no memory.
pub fn method_of<'t>(request: &JsonValue<'t>) -> Option<&'t str>
    ensures value { option_map (λ t. t.now) result ≡ method_in (view request.now) }
    ensures token { IfSome result (λ t. IsTrue (is_token t.now)) }
{
    let method = text_of(request, "method")?;
    if is_token(method) { Some(method) } else { None }
}

// The bytes of the body, none where it is absent or null.
fn bytes_of_body(alloc: Global, request: &JsonValue<'_>) -> Result<Blob, JobError>
    ensures { Reads (λ b. b) (bytes_given (get (codes "body") (view request.now))) result }
{
    match body_of(alloc, request)? {
        Some(body) => Ok(body),
        None => Ok(Blob::new(alloc, &[])?),
    }
}

// The request of these parts. No job where the target is no legal one.
fn request_with(
    alloc: Global,
    method: &str,
    target: &str,
    headers: Headers,
    body: Blob,
) -> Result<Request, JobError>
    requires { IsTrue (is_token method.now) }
    ensures { Reads (λ r. r) (request_with method.now target.now headers body) result }
{
    let method = Text::from_str(alloc, method)?;
    let target = Text::from_str(alloc, target)?;
    match Request::from_parts(method, target, headers, body) {
        Ok(request) => Ok(request),
        Err(_) => Err(JobError::NoJob),
    }
}

// The request that a JSON value is: its method, target, headers and body. No job where one hasn't its form.
#[tactic(auto, unfolding(crate::specs::Requests::request_in))]
fn request_in(alloc: Global, value: &JsonValue<'_>) -> Result<Request, JobError>
    ensures { Reads (λ r. r) (request_in (view value.now)) result }
{
    let Some(method) = method_of(value) else {
        return Err(JobError::NoJob);
    };
    let Some(target) = text_of(value, "target") else {
        return Err(JobError::NoJob);
    };
    let headers = headers_of(alloc, value)?;
    let body = bytes_of_body(alloc, value)?;
    request_with(alloc, method, target, headers, body)
}

/// The request that a job has. Takes memory. No job where it has none, or a part of it hasn't its form.
pub fn request_of(alloc: Global, job: &JsonValue<'_>) -> Result<Request, JobError>
    ensures { Reads (λ r. r) (request_given (view job.now)) result }
{
    match job.get("request") {
        Some(request) => request_in(alloc, request),
        None => Err(JobError::NoJob),
    }
}
