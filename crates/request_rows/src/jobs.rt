// Jobs that are read: the writes of an input, what a response is read as, a request whose input is recovered, one whose operation
// is found, and one that is sent on.
use crate::given_job::job_bytes;
use crate::told::{flag_text, no_job, push_headers, push_names, request_text, writes_text};
use serde_json::Value;
use smithy_http::NonUtf8HeaderHandling;
use smithy_job::{
    CodedError, Expected, Gateway, Job, NamedOperations, NamedRouting, Operation, Received,
    Recovering, Sending, read_gateway, read_job, read_named_routing, read_received,
    read_recovering,
};
use smithy_json::{JsonValue, Scratch, read_json};
use smithy_model::{is_full_name, members_of, text_of};
use smithy_recovery::are_shallow;
use smithy_schema::Schemas;
use smithy_serde::{OmitFlags, ShapeValue, WriteList};
use smithy_types::Text;
use std::alloc::Global;
use test_rows::{Failed, count_of, text_of as given_text, told_bytes};

/// The answer of one of these calls; none of another.
pub fn answer(alloc: Global, call: &str, given: &Value) -> Result<Option<Text>, Failed> {
    match call {
        "is_full_name" => {
            let is_name = is_full_name(given_text(given, "name")?);
            Ok(Some(flag_text(alloc, is_name)?))
        }
        "read_job"
        | "read_received"
        | "read_recovering"
        | "read_named_routing"
        | "read_gateway"
        | "are_shallow"
        | "WriteList::present"
        | "members_of" => Ok(Some(read_answer(alloc, call, given)?)),
        _ => Ok(None),
    }
}

// The answer of a call that is given the bytes of a job.
fn read_answer(alloc: Global, call: &str, given: &Value) -> Result<Text, Failed> {
    let bytes = job_bytes(alloc, given)?;
    let mut scratch = Scratch::new(alloc);
    match read_json(alloc, bytes.as_slice(), &mut scratch) {
        Ok(value) => value_answer(alloc, call, given, &value),
        Err(refusal) => no_job(alloc, refusal.into()),
    }
}

// The same, of the value that they are.
fn value_answer(
    alloc: Global,
    call: &str,
    given: &Value,
    value: &JsonValue<'_>,
) -> Result<Text, Failed> {
    match call {
        "read_job" => job(alloc, value),
        "read_received" => received(alloc, value),
        "read_recovering" => recovering(alloc, value),
        "read_named_routing" => named_routing(alloc, value),
        "read_gateway" => gateway(alloc, value),
        "are_shallow" => shallow(alloc, value, count_of(given, "levels")?),
        "WriteList::present" => present(alloc, value),
        _ => members(alloc, value),
    }
}

fn job(alloc: Global, value: &JsonValue<'_>) -> Result<Text, Failed> {
    match read_job(alloc, value) {
        Ok(job) => job_text(alloc, &job),
        Err(refusal) => no_job(alloc, refusal),
    }
}

// Whether the writes of a job are nested at most so many levels deep.
fn shallow(alloc: Global, value: &JsonValue<'_>, levels: usize) -> Result<Text, Failed> {
    match read_job(alloc, value) {
        Ok(job) => flag_text(alloc, are_shallow(&job.writes, levels)),
        Err(refusal) => no_job(alloc, refusal),
    }
}

// The writes of a job without those of null members.
fn present(alloc: Global, value: &JsonValue<'_>) -> Result<Text, Failed> {
    match read_job(alloc, value) {
        Ok(job) => {
            let writes = job.writes.present(alloc)?;
            let nodes = job.further.as_ref().unwrap_or(&job.table);
            both_levels(alloc, nodes, &writes)
        }
        Err(refusal) => no_job(alloc, refusal),
    }
}

// The writes, and those inside each of them in brackets.
fn both_levels(alloc: Global, nodes: &Schemas, writes: &WriteList) -> Result<Text, Failed> {
    let mut text = writes_text(alloc, nodes, writes)?;
    for (_, value) in writes.iter() {
        if let ShapeValue::List(inner)
        | ShapeValue::Map(inner)
        | ShapeValue::Struct(inner) = value
        {
            let inside = writes_text(alloc, nodes, inner)?;
            text.push_str(format!(in alloc; "[{}]", inside.as_str())?.as_str())?;
        }
    }
    Ok(text)
}

// The writes, whether they have names that are no member's, the endpoint, and the headers to be left out.
fn job_text(alloc: Global, job: &Job<'_>) -> Result<Text, Failed> {
    let nodes = job.further.as_ref().unwrap_or(&job.table);
    let mut text = writes_text(alloc, nodes, &job.writes)?;
    if job.further.is_some() {
        text.push_str("further names; ")?;
    }
    push_settings(alloc, &mut text, job.endpoint, job.omit)?;
    Ok(text)
}

// The headers to be left out, and the endpoint.
fn push_settings(
    alloc: Global,
    text: &mut Text,
    endpoint: &str,
    omit: OmitFlags,
) -> Result<(), Failed> {
    if omit.content_type {
        text.push_str("without content type; ")?;
    }
    if omit.content_length {
        text.push_str("without content length; ")?;
    }
    text.push_str(format!(in alloc; "endpoint \"{endpoint}\"")?.as_str())?;
    Ok(())
}

fn recovering(alloc: Global, value: &JsonValue<'_>) -> Result<Text, Failed> {
    match read_recovering(alloc, value) {
        Ok(job) => recovering_text(alloc, &job),
        Err(refusal) => no_job(alloc, refusal),
    }
}

// The name of the schema, the headers to be left out, the endpoint, and the request.
fn recovering_text(alloc: Global, job: &Recovering<'_>) -> Result<Text, Failed> {
    let mut text = Text::from_str(alloc, "by")?;
    push_names(&mut text, &job.table, &[job.index])?;
    text.push_str("; ")?;
    push_settings(alloc, &mut text, job.endpoint, job.omit)?;
    text.push_str("\n")?;
    text.push_str(request_text(alloc, &job.request)?.as_str())?;
    Ok(text)
}

fn named_routing(alloc: Global, value: &JsonValue<'_>) -> Result<Text, Failed> {
    match read_named_routing(alloc, value) {
        Ok(job) => named_text(alloc, job),
        Err(refusal) => no_job(alloc, refusal),
    }
}

// A line for each name, of its operation or that there is none, and then the job in which the last one recovers the input; where it
// is none, the request.
fn named_text(alloc: Global, job: NamedRouting<'_, '_>) -> Result<Text, Failed> {
    let mut text = Text::from_str(alloc, "")?;
    push_named(alloc, &mut text, &job.operations)?;
    text.push_str(last_text(alloc, job)?.as_str())?;
    Ok(text)
}

fn last_text(alloc: Global, job: NamedRouting<'_, '_>) -> Result<Text, Failed> {
    let Some(name) = job.operations.names.last() else {
        return request_text(alloc, &job.request);
    };
    match job.operations.read(alloc, name) {
        Ok(last) => recovering_text(alloc, &last.into_recovering(job.request, job.omit)),
        Err(_) => request_text(alloc, &job.request),
    }
}

fn push_named(
    alloc: Global,
    text: &mut Text,
    operations: &NamedOperations<'_, '_>,
) -> Result<(), Failed> {
    for name in operations.names {
        match operations.read(alloc, name) {
            Ok(operation) => push_operation(alloc, text, &operation)?,
            Err(refusal) => {
                text.push_str(no_job(alloc, refusal)?.as_str())?;
                text.push_str("\n")?;
            }
        }
    }
    Ok(())
}

// The name of an operation, its method and its template, and the name of its input's schema.
fn push_operation(alloc: Global, text: &mut Text, operation: &Operation<'_>) -> Result<(), Failed> {
    let name = operation.name;
    let http = operation.http();
    let method = http.method();
    let uri = http.uri();
    let schema = operation.schema().shape_id();
    let input = schema.as_str();
    text.push_str(format!(in alloc; "{name} {method} {uri} {input}\n")?.as_str())?;
    Ok(())
}

fn gateway(alloc: Global, value: &JsonValue<'_>) -> Result<Text, Failed> {
    match read_gateway(alloc, value) {
        Ok(job) => gateway_text(alloc, &job),
        Err(refusal) => no_job(alloc, refusal),
    }
}

// The side that the request goes to, the endpoint of calls, and the job in which its input is recovered.
fn gateway_text(alloc: Global, job: &Gateway<'_>) -> Result<Text, Failed> {
    let side = match job.to {
        Sending::Rest => "rest",
        Sending::Rpc => "rpc",
    };
    let endpoint = job.rpc_endpoint;
    let recovering = recovering_text(alloc, &job.recovering)?;
    let recovering = recovering.as_str();
    Ok(Text::from_string(format!(in alloc; "to {side} \"{endpoint}\" {recovering}")?))
}

fn received(alloc: Global, value: &JsonValue<'_>) -> Result<Text, Failed> {
    match read_received(alloc, value) {
        Ok(received) => received_text(alloc, &received),
        Err(refusal) => no_job(alloc, refusal),
    }
}

// The status, what becomes of headers that are no UTF-8, what the response is read as, its headers and its body.
fn received_text(alloc: Global, received: &Received<'_>) -> Result<Text, Failed> {
    let response = &received.response;
    let status = response.status();
    let policy = match received.policy {
        NonUtf8HeaderHandling::Reject => "reject",
        NonUtf8HeaderHandling::Skip => "skip",
    };
    let mut text = Text::from_string(format!(in alloc; "{status} {policy}: ")?);
    push_expected(&mut text, &received.table, &received.expected)?;
    text.push_str("\n")?;
    push_headers(alloc, &mut text, response.headers())?;
    if let Some(body) = response.body() {
        text.push_str("\n")?;
        text.push_str(told_bytes(alloc, body.as_slice())?.as_str())?;
    }
    Ok(text)
}

/// What a response is read as, by the names of its schemas.
pub fn push_expected(
    text: &mut Text,
    table: &Schemas,
    expected: &Expected<'_>,
) -> Result<(), Failed> {
    match expected {
        Expected::Output(place) => {
            text.push_str("output")?;
            push_names(text, table, &[*place])
        }
        Expected::Error(place) => {
            text.push_str("error")?;
            push_names(text, table, &[*place])
        }
        Expected::Coded(coded) => push_coded(text, table, coded),
    }
}

fn push_coded(text: &mut Text, table: &Schemas, coded: &CodedError<'_>) -> Result<(), Failed> {
    text.push_str("code ")?;
    text.push_str(coded.code)?;
    text.push_str(" of")?;
    push_names(text, table, coded.operation.as_slice())?;
    text.push_str("; service:")?;
    push_names(text, table, coded.service.as_slice())
}

// How many members an object has, and the text under a key.
fn members(alloc: Global, value: &JsonValue<'_>) -> Result<Text, Failed> {
    let Some(members) = members_of(value) else {
        return Ok(Text::from_str(alloc, "None")?);
    };
    let count = members.len();
    let found = text_of(value, "key").unwrap_or("no text");
    Ok(Text::from_string(format!(in alloc; "{count} members, {found}")?))
}
