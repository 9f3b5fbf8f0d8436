// Many inputs of one operation: as they are read, and as they are placed, each alone and all in lines.
ghost use Rattle.smithy_job.specs.CommonView.{IsReadCommon};
ghost use Rattle.smithy_bind.specs.RequestedView.{IsRead};

use crate::given_job::job_bytes;
use crate::told::{no_job, outcome_text, writes_text};
use serde_json::Value;
use smithy_bind::ReadOperation;
use smithy_document::{JsonCodec, json_is_lawful};
use smithy_job::{Common, inputs_of, read_common, read_whole};
use smithy_json::{JsonValue, Scratch, read_json};
use smithy_model::JobError;
use smithy_types::Text;
use std::alloc::Global;
use test_rows::{Failed, told_bytes};

/// The answer of one of these calls; none of another.
pub fn answer(alloc: Global, call: &str, given: &Value) -> Result<Option<Text>, Failed> {
    match call {
        "read_inputs" => Ok(Some(by_job(alloc, given, Told::Writes)?)),
        "read_whole" => Ok(Some(by_job(alloc, given, Told::Whole)?)),
        "ReadOperation::request" => Ok(Some(by_job(alloc, given, Told::Alone)?)),
        "ReadOperation::lines" => Ok(Some(by_job(alloc, given, Told::Lines)?)),
        _ => Ok(None),
    }
}

// What is told of a job.
#[derive(Clone, Copy)]
enum Told {
    Writes,
    Whole,
    Alone,
    Lines,
}

fn by_job(alloc: Global, given: &Value, told: Told) -> Result<Text, Failed> {
    let bytes = job_bytes(alloc, given)?;
    let mut scratch = Scratch::new(alloc);
    let job = match read_json(alloc, bytes.as_slice(), &mut scratch) {
        Ok(job) => job,
        Err(refusal) => return no_job(alloc, refusal.into()),
    };
    let Some(values) = inputs_of(&job) else {
        return no_job(alloc, JobError::NoJob);
    };
    match told {
        Told::Writes => writes(alloc, &job, values),
        Told::Whole => whole(alloc, &job),
        Told::Alone => alone(alloc, &job, values),
        Told::Lines => lines(alloc, &job, values),
    }
}

// The writes of each value.
fn writes(alloc: Global, job: &JsonValue<'_>, values: &[JsonValue<'_>]) -> Result<Text, Failed> {
    match read_common(alloc, job) {
        Ok(common) => writes_by(alloc, &common, values),
        Err(refusal) => no_job(alloc, refusal),
    }
}

// A line for the writes of each value, and whether they have names that are no member's.
fn writes_by(
    alloc: Global,
    common: &Common<'_, '_>,
    values: &[JsonValue<'_>],
) -> Result<Text, Failed>
    requires { IsReadCommon common.now }
{
    let inputs = common.read_inputs(alloc, values)?;
    let nodes = inputs.further.as_ref().unwrap_or(&common.model.table);
    let mut text = Text::from_str(alloc, "")?;
    for writes in &inputs.each {
        match writes {
            Some(writes) => text.push_str(writes_text(alloc, nodes, writes)?.as_str())?,
            None => text.push_str("none")?,
        }
        text.push_str("\n")?;
    }
    if inputs.further.is_some() {
        text.push_str("further names")?;
    }
    Ok(text)
}

// The endpoint, where each value has the form of an input.
fn whole(alloc: Global, job: &JsonValue<'_>) -> Result<Text, Failed> {
    match read_whole(alloc, job) {
        Ok(common) => {
            let endpoint = common.endpoint;
            Ok(Text::from_string(format!(in alloc; "endpoint \"{endpoint}\"")?))
        }
        Err(refusal) => no_job(alloc, refusal),
    }
}

// The request of each value alone.
fn alone(alloc: Global, job: &JsonValue<'_>, values: &[JsonValue<'_>]) -> Result<Text, Failed> {
    let operation = match ReadOperation::read(alloc, job) {
        Ok(operation) => operation,
        Err(refusal) => return no_job(alloc, refusal),
    };
    let mut text = Text::from_str(alloc, "")?;
    for value in values {
        text.push_str(placed(alloc, &operation, value)?.as_str())?;
        text.push_str(";\n")?;
    }
    Ok(text)
}

fn placed(
    alloc: Global,
    operation: &ReadOperation<'_, '_>,
    value: &JsonValue<'_>,
) -> Result<Text, Failed>
    requires { IsRead operation.now }
{
    let codec = JsonCodec;
    json_is_lawful(&codec);
    match operation.request(alloc, codec, value) {
        Ok(made) => outcome_text(alloc, made),
        Err(refusal) => no_job(alloc, refusal),
    }
}

fn lines(alloc: Global, job: &JsonValue<'_>, values: &[JsonValue<'_>]) -> Result<Text, Failed> {
    let operation = match ReadOperation::read(alloc, job) {
        Ok(operation) => operation,
        Err(refusal) => return no_job(alloc, refusal),
    };
    let codec = JsonCodec;
    json_is_lawful(&codec);
    let lines = operation.lines(alloc, codec, values)?;
    told_bytes(alloc, lines.as_slice())
}
