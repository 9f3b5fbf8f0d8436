// What a row asks of a response: a job of the command `response`.
use serde_json::Value;
use smithy_http::{NonUtf8HeaderHandling, Response};
use smithy_job::{Expected, Received, read_received};
use smithy_json::{Scratch, read_json};
use smithy_schema::{SchemaIndex, Schemas};
use smithy_types::{Blob, Text};
use std::alloc::Global;
use test_rows::{Failed, count_of, items_of, text_of};

/// A response, and the node that it is read by, as an output or as a modelled error.
#[derive(Drop)]
pub struct Asked {
    pub response: Response,
    pub policy: NonUtf8HeaderHandling,
    pub table: Schemas,
    pub place: SchemaIndex,
    pub is_error: bool,
}

/// What a job asks that names its error, where it asks for one. Under `long_body` the response's body may stand in parts, each
/// a text and how many times it stands.
pub fn asked_of(alloc: Global, given: &Value) -> Result<Asked, Failed> {
    let text = given.to_string(alloc)?;
    let mut scratch = Scratch::new(alloc);
    let job = read_json(alloc, text.as_bytes(), &mut scratch).map_err(|_| Failed)?;
    let received = read_received(alloc, &job).map_err(|_| Failed)?;
    let Received {
        response,
        policy,
        table,
        expected,
    } = received;
    let (place, is_error) = match expected {
        Expected::Output(place) => (place, false),
        Expected::Error(place) => (place, true),
        Expected::Coded(_) => return Err(Failed),
    };
    Ok(Asked {
        response: with_long_body(alloc, given, response)?,
        policy,
        table,
        place,
        is_error,
    })
}

fn with_long_body(alloc: Global, given: &Value, response: Response) -> Result<Response, Failed> {
    if given.get("long_body").is_none() {
        return Ok(response);
    }
    let mut body = Text::from_str(alloc, "")?;
    for part in items_of(given, "long_body")? {
        push_part(&mut body, part)?;
    }
    let body = Blob::new(alloc, body.as_str().as_bytes())?;
    let headers = response.headers().copy(alloc)?;
    Ok(Response::new(response.status(), headers, Some(body)))
}

fn push_part(body: &mut Text, part: &Value) -> Result<(), Failed> {
    let text = text_of(part, "text")?;
    for _ in 0..count_of(part, "times")? {
        body.push_str(text)?;
    }
    Ok(())
}

/// The bytes that a reader of the body reads: those of the text under `read`, and else the response's body.
pub fn body_bytes<'a>(given: &'a Value, response: &'a Response) -> &'a [u8] {
    if let Some(text) = given.get("read").and_then(Value::as_str) {
        return text.as_bytes();
    }
    match response.body() {
        Some(bytes) => bytes.as_slice(),
        None => &[],
    }
}
