// The response that a job has.
ghost use Rattle.std.specs.Prelude.{◌≡◌, ◌≤◌, ◌++◌, ◌∷◌, [], codes, map, option_and_then, IfSome};
ghost use Rattle.base64.specs.Engines.{standard};
ghost use Rattle.base64.specs.GeneralPurpose.{decoded_of};
ghost use Rattle.smithy_json.specs.views.JsonView.{view};
ghost use Rattle.serde_json.specs.Find.{get};
ghost use Rattle.smithy_types.specs.Results.{each};
ghost use Rattle.smithy_model.specs.Reads.{Reads};
ghost use Rattle.smithy_job.specs.Responses.{bytes_in, status_in, header_in, headers_given, body_given, response_in, policy_named, policy_given};
ghost use Rattle.smithy_job.specs.views.KeysView.{value_seen};
ghost use Rattle.smithy_job.specs.views.Tables.{ReadsAs};

use crate::input::pair_of;
use base64::DecodeAllocError;
use base64::engine::general_purpose::STANDARD;
use smithy_http::{Headers, NonUtf8HeaderHandling, Response};
use smithy_json::JsonValue;
use smithy_model::{JobError, items_of, text_of};
use smithy_types::{Blob, is_header_value, is_token};
use std::alloc::Global;

fn decoded(alloc: Global, text: &str) -> Result<Vec<u8>, JobError>
    ensures { Reads (λ v. v.items) (decoded_of standard text.now) result }
{
    match STANDARD.decode(alloc, text.as_bytes()) {
        Ok(bytes) => Ok(bytes),
        Err(DecodeAllocError::OutOfMemory) => Err(JobError::OutOfMemory),
        Err(DecodeAllocError::DecodeError(_)) => Err(JobError::NoJob),
    }
}

/// The bytes of a text, or of a text in base64. Takes memory. No job where it is neither.
pub fn bytes_of(alloc: Global, value: &JsonValue<'_>) -> Result<Vec<u8>, JobError>
    ensures { Reads (λ v. v.items) (bytes_in (view value.now)) result }
{
    if let Some(text) = value.as_str() {
        return Ok(Vec::from_slice(alloc, text.as_bytes())?);
    }
    match text_of(value, "base64") {
        Some(text) => decoded(alloc, text),
        None => Err(JobError::NoJob),
    }
}

/// The status that a JSON value has, three digits (RFC 7231, section 6).
pub fn status_of(response: &JsonValue<'_>) -> Option<u16>
    ensures status { result ≡ option_and_then status_in (get (codes "status") (view response.now)) }
    ensures digits { IfSome result (λ s. (100 ≤ s) × (s ≤ 999)) }
{
    let status = response.get("status")?.as_u64()?;
    if 100 <= status && status <= 999 {
        Some(status as u16)
    } else {
        None
    }
}

// Adds a header behind the others.
fn push_header(alloc: Global, headers: &mut Headers, header: &JsonValue<'_>) -> Result<(), JobError>
    ensures { ReadsAs (λ _ p. headers.new ≡ headers.old ++ p ∷ []) (header_in (view header.now)) result }
{
    let Some((name, value)) = pair_of(header) else {
        return Err(JobError::NoJob);
    };
    let value = bytes_of(alloc, value)?;
    if !is_token(name) || !is_header_value(value.as_slice()) {
        return Err(JobError::NoJob);
    }
    // A pair that was tested is refused for want of memory alone.
    match headers.append(name, value.as_slice()) {
        Ok(()) => Ok(()),
        Err(_) => Err(JobError::OutOfMemory),
    }
}

fn headers_in(alloc: Global, items: &[JsonValue<'_>]) -> Result<Headers, JobError>
    ensures { Reads (λ h. h) (each header_in (map view items.now)) result }
{
    let mut headers = Headers::new(alloc);
    for item in items {
        push_header(alloc, &mut headers, item)?;
    }
    Ok(headers)
}

/// The headers that a message has, none where they are absent. Takes memory.
pub fn headers_of(alloc: Global, message: &JsonValue<'_>) -> Result<Headers, JobError>
    ensures { Reads (λ h. h) (headers_given (get (codes "headers") (view message.now))) result }
{
    let Some(headers) = message.get("headers") else {
        return Ok(Headers::new(alloc));
    };
    match items_of(headers) {
        Some(items) => headers_in(alloc, items),
        None => Err(JobError::NoJob),
    }
}

/// The bytes of a message's body, and no body where it is absent or null. Takes memory.
pub fn body_of(alloc: Global, message: &JsonValue<'_>) -> Result<Option<Blob>, JobError>
    ensures { Reads (λ b. b) (body_given (get (codes "body") (view message.now))) result }
{
    let Some(body) = message.get("body") else {
        return Ok(None);
    };
    match body {
        JsonValue::Null => Ok(None),
        _ => Ok(Some(Blob::from_vec(bytes_of(alloc, body)?))),
    }
}

/// The response that a JSON value is: its status, headers and body. Takes memory. No job where one hasn't its form.
#[tactic(auto, unfolding(crate::specs::Responses::response_in))]
pub fn read_response(alloc: Global, value: &JsonValue<'_>) -> Result<Response, JobError>
    ensures { Reads (λ r. r) (response_in (view value.now)) result }
{
    let Some(status) = status_of(value) else {
        return Err(JobError::NoJob);
    };
    let headers = headers_of(alloc, value)?;
    let body = body_of(alloc, value)?;
    Ok(Response::new(status, headers, body))
}

fn policy_named(name: &str) -> Option<NonUtf8HeaderHandling>
    ensures { result ≡ policy_named name.now }
{
    if name == "reject" {
        return Some(NonUtf8HeaderHandling::Reject);
    }
    if name == "skip" {
        return Some(NonUtf8HeaderHandling::Skip);
    }
    None
}

/// What is said of header values that aren't UTF-8. None where it hasn't the form. Takes no memory.
pub fn policy_given(policy: Option<&JsonValue<'_>>) -> Option<NonUtf8HeaderHandling>
    ensures { result ≡ policy_given (value_seen policy.entry) }
{
    match policy {
        Some(policy) => policy_named(policy.as_str()?),
        None => Some(NonUtf8HeaderHandling::Reject),
    }
}
