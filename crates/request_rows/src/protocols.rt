// What a job says of a protocol of AWS, and which errors its response may name.
use crate::given_job::job_bytes;
use crate::told::{no_job, push_names};
use serde_json::Value;
use smithy_job::{AwsCall, AwsJsonCall, Keys, aws_call_of, aws_reading_of, read_errors};
use smithy_json::{JsonValue, Scratch, read_json};
use smithy_types::Text;
use std::alloc::Global;
use test_rows::Failed;

/// The answer of this call; none of another.
pub fn answer(alloc: Global, call: &str, given: &Value) -> Result<Option<Text>, Failed> {
    match call {
        "aws_call_of" => Ok(Some(protocol_answer(alloc, given)?)),
        _ => Ok(None),
    }
}

fn protocol_answer(alloc: Global, given: &Value) -> Result<Text, Failed> {
    let bytes = job_bytes(alloc, given)?;
    let mut scratch = Scratch::new(alloc);
    match read_json(alloc, bytes.as_slice(), &mut scratch) {
        Ok(job) => protocol_text(alloc, &job),
        Err(refusal) => no_job(alloc, refusal.into()),
    }
}

// How an input is sent, how a response is read, and the errors that it may name.
fn protocol_text(alloc: Global, job: &JsonValue<'_>) -> Result<Text, Failed> {
    let protocol = job.get("protocol").ok_or(Failed)?;
    let mut text = Text::from_str(alloc, "")?;
    match aws_call_of(protocol, job) {
        Some(call) => push_call(alloc, &mut text, &call)?,
        None => text.push_str("None")?,
    }
    text.push_str(match aws_reading_of(protocol, job) {
        Some(reading) if reading.floors_times => "; floor",
        Some(_) => "; refuse",
        None => "; None",
    })?;
    push_errors(alloc, &mut text, &Keys::of(job))?;
    Ok(text)
}

fn push_call(alloc: Global, text: &mut Text, call: &AwsCall<'_>) -> Result<(), Failed> {
    match call {
        AwsCall::RestJson1 => Ok(text.push_str("RestJson1")?),
        AwsCall::AwsJson10(call) => push_json_call(alloc, text, "AwsJson10", call),
        AwsCall::AwsJson11(call) => push_json_call(alloc, text, "AwsJson11", call),
    }
}

fn push_json_call(
    alloc: Global,
    text: &mut Text,
    protocol: &str,
    call: &AwsJsonCall<'_>,
) -> Result<(), Failed> {
    let (service, operation) = (call.service.as_str(), call.operation.as_str());
    text.push_str(format!(in alloc; "{protocol} {service} {operation}")?.as_str())?;
    if call.is_query_compatible {
        text.push_str(" as of queries")?;
    }
    Ok(())
}

fn push_errors(alloc: Global, text: &mut Text, keys: &Keys<'_, '_>) -> Result<(), Failed> {
    match read_errors(alloc, keys) {
        Ok(errors) => {
            text.push_str("; errors:")?;
            push_names(text, &errors.table, errors.operation.as_slice())?;
            push_names(text, &errors.table, errors.service.as_slice())
        }
        Err(_) => Ok(text.push_str("; no errors")?),
    }
}
