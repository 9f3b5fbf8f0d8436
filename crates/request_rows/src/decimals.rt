// Models whose floats are read as decimals or as they are, and the jobs that have them.
use crate::given_job::job_bytes;
use crate::told::no_job;
use serde_json::Value;
use smithy_job::{
    Expected, Keys, read_errors_with_floats, read_expected_with_floats, read_job_with_floats,
};
use smithy_json::{JsonValue, Scratch, read_json};
use smithy_model::{
    Asked, Floats, JobError, ModelTable, PlacedErrors, errors_with_floats, schema_with_floats,
    text_of,
};
use smithy_schema::{SchemaIndex, SchemaRef, Schemas};
use smithy_serde::{ShapeValue, kind_word};
use smithy_types::Text;
use std::alloc::Global;
use test_rows::{Failed, flag_of};

/// The answer of one of these calls; none of another.
pub fn answer(alloc: Global, call: &str, given: &Value) -> Result<Option<Text>, Failed> {
    match call {
        "schema_with_floats"
        | "errors_with_floats"
        | "read_job_with_floats"
        | "read_expected_with_floats"
        | "read_errors_with_floats" => Ok(Some(job_answer(alloc, call, given)?)),
        _ => Ok(None),
    }
}

fn job_answer(alloc: Global, call: &str, given: &Value) -> Result<Text, Failed> {
    let floats = if flag_of(given, "decimals") {
        Floats::Decimals
    } else {
        Floats::Kept
    };
    let bytes = job_bytes(alloc, given)?;
    let mut scratch = Scratch::new(alloc);
    match read_json(alloc, bytes.as_slice(), &mut scratch) {
        Ok(job) => told(alloc, call, &job, floats),
        Err(refusal) => no_job(alloc, refusal.into()),
    }
}

// What a call has of a job.
fn told(alloc: Global, call: &str, job: &JsonValue<'_>, floats: Floats) -> Result<Text, Failed> {
    match call {
        "schema_with_floats" => input(alloc, job, floats),
        "errors_with_floats" => errors(alloc, operation_errors(alloc, job, floats)),
        "read_job_with_floats" => writes(alloc, job, floats),
        "read_expected_with_floats" => expected(alloc, job, floats),
        _ => errors(
            alloc,
            read_errors_with_floats(alloc, &Keys::of(job), floats),
        ),
    }
}

fn input(alloc: Global, job: &JsonValue<'_>, floats: Floats) -> Result<Text, Failed> {
    match input_of(alloc, job, floats) {
        Ok(placed) => kinds_text(alloc, &placed.table, placed.index),
        Err(refusal) => no_job(alloc, refusal),
    }
}

fn input_of(alloc: Global, job: &JsonValue<'_>, floats: Floats) -> Result<ModelTable, JobError> {
    let (Some(model), Some(name)) = (job.get("model"), text_of(job, "operation")) else {
        return Err(JobError::NoJob);
    };
    schema_with_floats(alloc, model, name, Asked::Input, floats)
}

fn operation_errors(
    alloc: Global,
    job: &JsonValue<'_>,
    floats: Floats,
) -> Result<PlacedErrors, JobError> {
    let (Some(model), Some(name)) = (job.get("model"), text_of(job, "operation")) else {
        return Err(JobError::NoJob);
    };
    errors_with_floats(alloc, model, name, &[], floats)
}

// A line for each error.
fn errors(alloc: Global, placed: Result<PlacedErrors, JobError>) -> Result<Text, Failed> {
    let placed = match placed {
        Ok(placed) => placed,
        Err(refusal) => return no_job(alloc, refusal),
    };
    let mut text = Text::from_str(alloc, "")?;
    push_all(alloc, &mut text, &placed.table, placed.operation.as_slice())?;
    push_all(alloc, &mut text, &placed.table, placed.service.as_slice())?;
    Ok(text)
}

fn push_all(
    alloc: Global,
    text: &mut Text,
    table: &Schemas,
    places: &[SchemaIndex],
) -> Result<(), Failed> {
    for place in places {
        text.push_str(kinds_text(alloc, table, *place)?.as_str())?;
        text.push_str("\n")?;
    }
    Ok(())
}

// The output, or the error of a name.
fn expected(alloc: Global, job: &JsonValue<'_>, floats: Floats) -> Result<Text, Failed> {
    let read = match read_expected_with_floats(alloc, &Keys::of(job), floats) {
        Ok(read) => read,
        Err(refusal) => return no_job(alloc, refusal),
    };
    match read.expected {
        Expected::Output(place) | Expected::Error(place) => kinds_text(alloc, &read.table, place),
        Expected::Coded(_) => Err(Failed),
    }
}

// The name of a schema, and each of its members with its kind and that of a list's element.
fn kinds_text(alloc: Global, table: &Schemas, place: SchemaIndex) -> Result<Text, Failed> {
    let schema = table.get(place).ok_or(Failed)?;
    let mut text = Text::from_str(alloc, schema.full_name())?;
    for member in schema.members() {
        push_member(&mut text, table.get(*member).ok_or(Failed)?)?;
    }
    Ok(text)
}

fn push_member(text: &mut Text, member: SchemaRef<'_>) -> Result<(), Failed> {
    text.push_str("; ")?;
    text.push_str(member.member_name().unwrap_or(""))?;
    text.push_str(" ")?;
    text.push_str(kind_word(member.shape_type()))?;
    if let Some(element) = member.element() {
        text.push_str(" of ")?;
        text.push_str(kind_word(element.shape_type()))?;
    }
    Ok(())
}

// The writes of a job, each with the word of its kind, and a number's text.
fn writes(alloc: Global, job: &JsonValue<'_>, floats: Floats) -> Result<Text, Failed> {
    let job = match read_job_with_floats(alloc, job, floats) {
        Ok(job) => job,
        Err(refusal) => return no_job(alloc, refusal),
    };
    let nodes = job.further.as_ref().unwrap_or(&job.table);
    let mut text = Text::from_str(alloc, "")?;
    for (node, value) in job.writes.iter() {
        let name = nodes.get(node).ok_or(Failed)?.member_name().unwrap_or("");
        text.push_str(name)?;
        push_value(alloc, &mut text, value)?;
    }
    Ok(text)
}

fn push_value(alloc: Global, text: &mut Text, value: &ShapeValue) -> Result<(), Failed> {
    text.push_str(" ")?;
    text.push_str(value.written_word())?;
    match value {
        ShapeValue::BigDecimal(number) => push_digits(text, number.as_str())?,
        ShapeValue::BigInteger(number) => push_digits(text, number.as_str())?,
        ShapeValue::Long(number) => {
            push_digits(text, format!(in alloc; "{number}")?.as_str())?;
        }
        _ => {}
    }
    Ok(text.push_str("; ")?)
}

fn push_digits(text: &mut Text, digits: &str) -> Result<(), Failed> {
    text.push_str(" ")?;
    Ok(text.push_str(digits)?)
}
