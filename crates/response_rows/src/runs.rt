// Runs of the program, requests whose bodies a second codec writes, and texts of header lists.
use crate::json::text_of as told_bytes_of;
use crate::told::{counted, told_refusal, told_text};
use second_codec::{SpacedJson, spaced_is_lawful};
use serde_json::Value;
use smithy_bind::laws::run_in_memory;
use smithy_bind::run_request;
use smithy_binding::{HttpBindingProtocol, checked_input};
use smithy_http::{Headers, Request, tokens};
use smithy_ids::{ShapeId, ShapeType};
use smithy_io::{SureSink, SureSource};
use smithy_job::{Job, read_job};
use smithy_json::{Scratch, read_json};
use smithy_schema::SchemaRef;
use smithy_serde::{Codec, SerdeError, ShapeSerializer, StructValue};
use smithy_strings::HttpStringSerializer;
use smithy_types::{Blob, Text, Words};
use std::alloc::Global;
use test_rows::{Failed, items_of};

// How many bytes a run may write.
const ROOM: usize = 100_000;

/// The exit status of a run with its output; a request; or the text of a header list, and what it is read as.
pub fn answer(alloc: Global, call: &str, given: &Value) -> Result<Option<Text>, Failed> {
    match call {
        "run_in_memory" => Ok(Some(run_of(alloc, given)?)),
        "run_request" => Ok(Some(spaced_run(alloc, given)?)),
        "serialize_request_with_body" => Ok(Some(spaced_request(alloc, given)?)),
        "HttpStringSerializer::finish" => Ok(Some(listed(alloc, given)?)),
        _ => Ok(None),
    }
}

// The status and what was written.
fn ended(alloc: Global, code: u8, sink: &SureSink) -> Result<Text, Failed> {
    let text = told_bytes_of(alloc, sink.written())?;
    let text = text.as_str();
    Ok(Text::from_string(format!(in alloc; "{code} {text}")?))
}

fn source_of(alloc: Global, given: &Value) -> Result<SureSource, Failed> {
    let job = given.get("job").ok_or(Failed)?.to_string(alloc)?;
    Ok(SureSource::new(Blob::new(alloc, job.as_bytes())?))
}

// The texts under a key.
fn words_of(alloc: Global, given: &Value, key: &str) -> Result<Words, Failed> {
    let mut words = Words::new(alloc);
    for word in items_of(given, key)? {
        words.push(word.as_str().ok_or(Failed)?)?;
    }
    Ok(words)
}

// The words under `words`, over the job.
fn run_of(alloc: Global, given: &Value) -> Result<Text, Failed> {
    let words = words_of(alloc, given, "words")?;
    let mut source = source_of(alloc, given)?;
    let mut sink = SureSink::new(alloc, ROOM)?;
    let status = run_in_memory(alloc, &words, &mut source, &mut sink);
    ended(alloc, status.code(), &sink)
}

fn spaced_run(alloc: Global, given: &Value) -> Result<Text, Failed> {
    let mut source = source_of(alloc, given)?;
    let mut sink = SureSink::new(alloc, ROOM)?;
    let codec = SpacedJson;
    spaced_is_lawful(&codec);
    let status = run_request(alloc, codec, &mut source, &mut sink);
    ended(alloc, status.code(), &sink)
}

// The request of a job by a serializer of one's own.
fn spaced_request(alloc: Global, given: &Value) -> Result<Text, Failed> {
    let text = given.to_string(alloc)?;
    let mut scratch = Scratch::new(alloc);
    let value = read_json(alloc, text.as_bytes(), &mut scratch).map_err(|_| Failed)?;
    let Ok(job) = read_job(alloc, &value) else {
        return Err(Failed);
    };
    let Job {
        table,
        index,
        further,
        writes,
        endpoint,
        omit,
    } = job;
    let Some(schema) = table.get(index) else {
        return Err(Failed);
    };
    let nodes = further.as_ref().unwrap_or(&table);
    let input = StructValue::with_writes(nodes, index, writes);
    if !checked_input(alloc, schema)? {
        return Err(Failed);
    }
    let id = ShapeId::from_parts("test#spaced", "test", "spaced");
    let protocol = HttpBindingProtocol::new(id, SpacedJson, "application/json");
    spaced_is_lawful(protocol.codec());
    let Ok(body) = protocol.codec().create_serializer(alloc) else {
        return Err(Failed);
    };
    let made = protocol.serialize_request_with_body(alloc, body, &input, schema, endpoint, omit);
    request_told(alloc, &made)
}

// The method, the target, each header and the body, or the refusal.
fn request_told(alloc: Global, made: &Result<Request, SerdeError>) -> Result<Text, Failed> {
    match made {
        Ok(request) => {
            let method = request.method();
            let target = request.uri();
            let mut text = Text::from_string(format!(in alloc; "{method} {target}\n")?);
            push_headers(&mut text, request.headers())?;
            text.push_str("\n")?;
            text.push_str(told_bytes_of(alloc, request.body().as_slice())?.as_str())?;
            Ok(text)
        }
        Err(refusal) => Ok(told_refusal(alloc, refusal)?),
    }
}

fn push_headers(text: &mut Text, headers: &Headers) -> Result<(), Failed> {
    for (name, value) in headers.iter_bytes() {
        text.push_str(name)?;
        text.push_str(": ")?;
        text.push_str(str::from_utf8(value).map_err(|_| Failed)?)?;
        text.push_str("\n")?;
    }
    Ok(())
}

// The texts under `texts`, as the string codec writes their list, and what a header with it is read as.
fn listed(alloc: Global, given: &Value) -> Result<Text, Failed> {
    let text = list_text(alloc, &words_of(alloc, given, "texts")?).map_err(|_| Failed)?;
    let mut headers = Headers::new(alloc);
    headers
        .append("x-tags", text.as_str().as_bytes())
        .map_err(|_| Failed)?;
    let words = tokens(alloc, &headers, "x-tags").map_err(|_| Failed)?;
    let mut told = counted(alloc, words.len(), "items in ")?;
    told.push_str(text.as_str())?;
    for word in words.as_slice() {
        told.push_str(" / ")?;
        told.push_str(told_text(alloc, word.as_str())?.as_str())?;
    }
    Ok(told)
}

fn list_text(alloc: Global, texts: &Words) -> Result<Text, SerdeError> {
    let mut serializer = HttpStringSerializer::new(alloc);
    serializer.write_string_list(SchemaRef::prelude(ShapeType::String), texts)?;
    serializer.finish()
}
