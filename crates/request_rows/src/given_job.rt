// Jobs as rows give them.
use serde_json::Value;
use smithy_job::JobKind;
use smithy_types::{Blob, Text};
use std::alloc::Global;
use test_rows::{Failed, count_of, item_bytes, text_of};

/// The bytes of the job under `job`, or else of the whole: a text or `{"base64":T}` as it is, an array as its parts, and an
/// object as its JSON text. It takes memory.
pub fn job_bytes(alloc: Global, given: &Value) -> Result<Blob, Failed> {
    let job = given.get("job").unwrap_or(given);
    if let Some(parts) = job.as_array() {
        return text_of_parts(alloc, parts);
    }
    if job.as_str().is_some() || job.get("base64").is_some() {
        return item_bytes(alloc, job);
    }
    Ok(Blob::new(alloc, job.to_string(alloc)?.as_bytes())?)
}

// Parts one after another: a text, or `{"text":T,"times":N}`, which is T, N times, with its turn from 0 on in place of each `@`.
fn text_of_parts(alloc: Global, parts: &Vec<Value>) -> Result<Blob, Failed> {
    let mut text = Text::from_str(alloc, "")?;
    for part in parts {
        match part.as_str() {
            Some(part) => text.push_str(part)?,
            None => push_times(
                alloc,
                &mut text,
                text_of(part, "text")?,
                count_of(part, "times")?,
            )?,
        }
    }
    Ok(Blob::new(alloc, text.as_str().as_bytes())?)
}

fn push_times(alloc: Global, text: &mut Text, part: &str, times: usize) -> Result<(), Failed> {
    for turn in 0..times {
        push_numbered(alloc, text, part, turn)?;
    }
    Ok(())
}

// Adds a part with a number in place of each `@`.
fn push_numbered(alloc: Global, text: &mut Text, part: &str, turn: usize) -> Result<(), Failed> {
    let mut is_first = true;
    for piece in part.split('@') {
        if !is_first {
            text.push_str(format!(in alloc; "{turn}")?.as_str())?;
        }
        text.push_str(piece)?;
        is_first = false;
    }
    Ok(())
}

/// The kind of job that the text under a key names.
pub fn job_kind(given: &Value, key: &str) -> Result<JobKind, Failed> {
    match text_of(given, key)? {
        "request" => Ok(JobKind::Request),
        "requests" => Ok(JobKind::Requests),
        "rpc" => Ok(JobKind::Rpc),
        "response" => Ok(JobKind::Response),
        "responses" => Ok(JobKind::Responses),
        "recover" => Ok(JobKind::Recover),
        "route" => Ok(JobKind::Route),
        "gateway" => Ok(JobKind::Gateway),
        "answer" => Ok(JobKind::Answer),
        _ => Err(Failed),
    }
}
