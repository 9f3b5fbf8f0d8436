// The first wrong place of a request or a response.
ghost use Rattle.std.specs.Prelude.{◌≡◌, map, IfOk};
ghost use Rattle.smithy_json.specs.views.JsonView.{view};
ghost use Rattle.smithy_model.specs.Wrong.{first_item};
ghost use Rattle.smithy_model.specs.views.WrongView.{Finds, wrong_view};
ghost use Rattle.smithy_job.specs.WrongMessages.{not_bytes, wrong_bytes, wrong_header_value, wrong_named_header, wrong_header, wrong_headers, wrong_headers_of, wrong_body, wrong_body_of, wrong_content, has_legal_target, wrong_response, wrong_request};
ghost use Rattle.smithy_job.specs.views.Seen.{seen};

use crate::input::pair_of;
use crate::request::method_of;
use crate::response::{bytes_of, status_of};
use smithy_json::JsonValue;
use smithy_model::{
    JobError, Wrong, asked_at, asked_here, in_item, in_key, is_object, items_of, text_of,
    unless_at, unless_here,
};
use smithy_types::{OutOfMemory, is_header_value, is_token, legal_target};
use std::alloc::Global;

// No bytes of a text, nor of a text in base64.
fn not_bytes(alloc: Global, value: &JsonValue<'_>) -> Result<Wrong, OutOfMemory>
    ensures { IfOk result (λ w. wrong_view w ≡ not_bytes (view value.now)) }
{
    match text_of(value, "base64") {
        Some(_) => asked_at(alloc, "base64", "base64 with its padding is asked"),
        None => asked_here(alloc, "a text is asked, or an object with `base64`"),
    }
}

#[tactic(auto, unfolding(crate::specs::WrongMessages::wrong_bytes))]
fn wrong_bytes(alloc: Global, value: &JsonValue<'_>) -> Result<Option<Wrong>, OutOfMemory>
    ensures { Finds (wrong_bytes (view value.now)) result }
{
    match bytes_of(alloc, value) {
        Ok(_) => Ok(None),
        Err(JobError::NoJob) => Ok(Some(not_bytes(alloc, value)?)),
        Err(JobError::OutOfMemory) => Err(OutOfMemory),
    }
}

// The value of a header.
#[tactic(auto, unfolding(crate::specs::WrongMessages::wrong_header_value))]
fn wrong_header_value(alloc: Global, value: &JsonValue<'_>) -> Result<Option<Wrong>, OutOfMemory>
    ensures { Finds (wrong_header_value (view value.now)) result }
{
    match bytes_of(alloc, value) {
        Ok(bytes) => unless_here(
            alloc,
            is_header_value(bytes.as_slice()),
            "a header's value has no control byte but the tab",
        ),
        Err(JobError::NoJob) => Ok(Some(not_bytes(alloc, value)?)),
        Err(JobError::OutOfMemory) => Err(OutOfMemory),
    }
}

fn wrong_named_header(
    alloc: Global,
    name: &str,
    value: &JsonValue<'_>,
) -> Result<Option<Wrong>, OutOfMemory>
    ensures { Finds (wrong_named_header (name.now, view value.now)) result }
{
    let words = "the name of a header is asked, a token";
    if let Some(wrong) = in_item(0, unless_here(alloc, is_token(name), words)?)? {
        return Ok(Some(wrong));
    }
    in_item(1, wrong_header_value(alloc, value)?)
}

#[tactic(auto, unfolding(crate::specs::WrongMessages::wrong_header))]
fn wrong_header(alloc: Global, header: &JsonValue<'_>) -> Result<Option<Wrong>, OutOfMemory>
    ensures { Finds (wrong_header (view header.now)) result }
{
    match pair_of(header) {
        Some((name, value)) => wrong_named_header(alloc, name, value),
        None => Ok(Some(asked_here(alloc, "an array of a name and a value is asked")?)),
    }
}

fn wrong_header_in(alloc: Global, items: &[JsonValue<'_>]) -> Result<Option<Wrong>, OutOfMemory>
    ensures { Finds (first_item wrong_header 0 (map view items.now)) result }
{
    for (position, item) in items.iter().enumerate() {
        if let Some(wrong) = in_item(position, wrong_header(alloc, item)?)? {
            return Ok(Some(wrong));
        }
    }
    Ok(None)
}

#[tactic(auto, unfolding(crate::specs::WrongMessages::wrong_headers))]
fn wrong_headers(alloc: Global, headers: &JsonValue<'_>) -> Result<Option<Wrong>, OutOfMemory>
    ensures { Finds (wrong_headers (view headers.now)) result }
{
    match items_of(headers) {
        Some(items) => wrong_header_in(alloc, items),
        None => Ok(Some(asked_here(alloc, "an array of pairs is asked")?)),
    }
}

// The headers of a message, which may be absent.
fn wrong_headers_of(alloc: Global, message: &JsonValue<'_>) -> Result<Option<Wrong>, OutOfMemory>
    ensures { Finds (wrong_headers_of (view message.now)) result }
{
    match message.get("headers") {
        Some(headers) => in_key(alloc, "headers", wrong_headers(alloc, headers)?),
        None => Ok(None),
    }
}

fn wrong_body(alloc: Global, body: &JsonValue<'_>) -> Result<Option<Wrong>, OutOfMemory>
    ensures { Finds (wrong_body (view body.now)) result }
{
    match body {
        JsonValue::Null => Ok(None),
        _ => wrong_bytes(alloc, body),
    }
}

// The body of a message, which may be absent or null.
fn wrong_body_of(alloc: Global, message: &JsonValue<'_>) -> Result<Option<Wrong>, OutOfMemory>
    ensures { Finds (wrong_body_of (view message.now)) result }
{
    match message.get("body") {
        Some(body) => in_key(alloc, "body", wrong_body(alloc, body)?),
        None => Ok(None),
    }
}

#[tactic(auto, unfolding(crate::specs::WrongMessages::wrong_content))]
fn wrong_content(alloc: Global, message: &JsonValue<'_>) -> Result<Option<Wrong>, OutOfMemory>
    ensures { Finds (wrong_content (view message.now)) result }
{
    if let Some(wrong) = wrong_headers_of(alloc, message)? {
        return Ok(Some(wrong));
    }
    wrong_body_of(alloc, message)
}

/// The first wrong place of a response: of its status, its headers and its body. Takes memory.
#[tactic(auto, unfolding(crate::specs::WrongMessages::wrong_response))]
pub fn wrong_response(alloc: Global, response: &JsonValue<'_>) -> Result<Option<Wrong>, OutOfMemory>
    ensures { Finds (wrong_response (view response.now)) result }
{
    let words = "an object with `status` is asked";
    if let Some(wrong) = unless_here(alloc, is_object(response), words)? {
        return Ok(Some(wrong));
    }
    let has_status = status_of(response).is_some();
    let words = "a whole number from 100 to 999 is asked";
    if let Some(wrong) = unless_at(alloc, has_status, "status", words)? {
        return Ok(Some(wrong));
    }
    wrong_content(alloc, response)
}

fn has_legal_target(request: &JsonValue<'_>) -> bool
    ensures { result ≡ has_legal_target (view request.now) }
{
    match text_of(request, "target") {
        Some(target) => legal_target(target),
        None => false,
    }
}

/// The first wrong place of a request: of its method, its target, its headers and its body. Takes memory.
#[tactic(auto, unfolding(crate::specs::WrongMessages::wrong_request))]
pub fn wrong_request(alloc: Global, request: &JsonValue<'_>) -> Result<Option<Wrong>, OutOfMemory>
    ensures { Finds (wrong_request (view request.now)) result }
{
    let words = "an object with `method` and `target` is asked";
    if let Some(wrong) = unless_here(alloc, is_object(request), words)? {
        return Ok(Some(wrong));
    }
    let has_method = method_of(request).is_some();
    let words = "a method is asked, a token";
    if let Some(wrong) = unless_at(alloc, has_method, "method", words)? {
        return Ok(Some(wrong));
    }
    let words = "a legal target is asked, as /a?b=c";
    if let Some(wrong) = unless_at(alloc, has_legal_target(request), "target", words)? {
        return Ok(Some(wrong));
    }
    wrong_content(alloc, request)
}
