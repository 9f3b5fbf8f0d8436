// Requests and responses.
use crate::http::headers::{take_step, tell_pairs, tell_refusal};
use crate::steps::{step_text, step_value};
use crate::telling::Told;
use serde_json::Value;
use smithy_http::{Headers, HttpError, NonUtf8HeaderHandling, Request, Response};
use smithy_types::{Blob, Text, is_token};
use std::alloc::Global;
use test_rows::{
    Failed, bytes_of, count_of, item_bytes, item_text, items_of, long_text_of, text_of,
};

/// What the steps on a new request answer, and the request behind them.
pub fn request(alloc: Global, given: &Value) -> Result<Text, Failed> {
    let mut told = Told::new(alloc)?;
    let mut request = Request::new(alloc, bytes_of(alloc, given, "body")?)?;
    for step in items_of(given, "steps")? {
        change(&mut told, &mut request, step)?;
    }
    tell_request(&mut told, &request)?;
    Ok(told.into_text())
}

// Takes a step on a request, or on its headers.
fn change(told: &mut Told, request: &mut Request, step: &Value) -> Result<(), Failed> {
    match step_text(step, 0)? {
        "set_method" => set_method(request, step_text(step, 1)?),
        "set_uri" => {
            let target = item_text(told.alloc(), step_value(step, 1)?)?;
            tell_refusal(told, request.set_uri(target.as_str()))
        }
        "set_body" => {
            request.set_body(item_bytes(told.alloc(), step_value(step, 1)?)?);
            Ok(())
        }
        _ => take_step(told, request.headers_mut(), step),
    }
}

fn set_method(request: &mut Request, method: &str) -> Result<(), Failed> {
    if !is_token(method) {
        return Err(Failed);
    }
    request.set_method(method)?;
    Ok(())
}

fn tell_request(told: &mut Told, request: &Request) -> Result<(), Failed> {
    told.tell(request.method())?;
    told.tell_text("target", request.uri())?;
    tell_pairs(told, request.headers())?;
    told.tell_bytes("body", request.body().as_slice())
}

// What comes of the parts of a request.
fn told_made(alloc: Global, made: Result<Request, HttpError>) -> Result<Text, Failed> {
    let mut told = Told::new(alloc)?;
    match made {
        Ok(request) => tell_request(&mut told, &request)?,
        Err(error) => tell_refusal(&mut told, Err(error))?,
    }
    Ok(told.into_text())
}

/// A request of its parts.
pub fn request_of_parts(alloc: Global, given: &Value) -> Result<Text, Failed> {
    let headers = headers_of(alloc, given)?;
    let body = bytes_of(alloc, given, "body")?;
    told_made(alloc, of_parts(alloc, given, headers, body)?)
}

/// A request of its parts, whose method is lent.
pub fn request_with_method(alloc: Global, given: &Value) -> Result<Text, Failed> {
    let headers = headers_of(alloc, given)?;
    let body = bytes_of(alloc, given, "body")?;
    told_made(alloc, with_method(alloc, given, headers, body)?)
}

fn with_method(
    alloc: Global,
    given: &Value,
    headers: Headers,
    body: Blob,
) -> Result<Result<Request, HttpError>, Failed> {
    let method = text_of(given, "method")?;
    let target = long_text_of(alloc, given, "target")?;
    if !is_token(method) {
        return Err(Failed);
    }
    Ok(Request::with_method(alloc, method, target, headers, body))
}

fn of_parts(
    alloc: Global,
    given: &Value,
    headers: Headers,
    body: Blob,
) -> Result<Result<Request, HttpError>, Failed> {
    let method = Text::from_str(alloc, text_of(given, "method")?)?;
    let target = long_text_of(alloc, given, "target")?;
    if !is_token(method.as_str()) {
        return Err(Failed);
    }
    Ok(Request::from_parts(method, target, headers, body))
}

// The headers under the key `headers`, pairs of a name and a value.
fn headers_of(alloc: Global, given: &Value) -> Result<Headers, Failed> {
    let mut headers = Headers::new(alloc);
    for pair in items_of(given, "headers")? {
        let value = item_bytes(alloc, step_value(pair, 1)?)?;
        let added = headers.append(step_text(pair, 0)?, value.as_slice());
        added.ok().ok_or(Failed)?;
    }
    Ok(headers)
}

/// A response of its parts, and what is done with its headers where nothing is said.
pub fn response(alloc: Global, given: &Value) -> Result<Text, Failed> {
    let mut told = Told::new(alloc)?;
    let status = u16::try_from(count_of(given, "status")?)
        .ok()
        .ok_or(Failed)?;
    if status < 100 || status > 999 {
        return Err(Failed);
    }
    let body = match given.get("body") {
        Some(body) => Some(item_bytes(alloc, body)?),
        None => None,
    };
    let response = Response::new(status, headers_of(alloc, given)?, body);
    tell_response(&mut told, &response)?;
    Ok(told.into_text())
}

fn tell_response(told: &mut Told, response: &Response) -> Result<(), Failed> {
    let status = format!(in told.alloc(); "{}", response.status())?;
    told.tell(status.as_str())?;
    tell_pairs(told, response.headers())?;
    if response.body().is_none() {
        told.tell("no body")?;
    }
    told.tell_bytes("body", response.body_bytes())?;
    let policy = NonUtf8HeaderHandling::default();
    told.tell_flag("rejects", policy == NonUtf8HeaderHandling::Reject)
}
