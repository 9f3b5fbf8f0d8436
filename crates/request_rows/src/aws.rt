// Inputs made ready for AWS's JSON protocols, and their requests.
use crate::given_job::job_bytes;
use crate::told::{no_job, outcome_text, writes_text};
use serde_json::Value;
use smithy_aws::laws::rest_json1_requests_tell;
use smithy_aws::{AwsJson, AwsJsonVersion, ReadyInput, RestJson1Input};
use smithy_ids::ShapeId;
use smithy_job::{Job, read_job};
use smithy_json::{Scratch, read_json};
use smithy_schema::SchemaRef;
use smithy_serde::{OmitFlags, StructValue, record_members};
use smithy_types::Text;
use std::alloc::Global;
use test_rows::{Failed, flag_of, text_of};

// What is asked of a row's job.
#[derive(Clone, Copy)]
enum Asked {
    Ready,
    RestJson1,
    AwsJson,
}

/// The answer of one of these calls; none of another.
pub fn answer(alloc: Global, call: &str, given: &Value) -> Result<Option<Text>, Failed> {
    match call {
        "ReadyInput::of" => Ok(Some(job_told(alloc, given, Asked::Ready)?)),
        "RestJson1Input::request" => Ok(Some(job_told(alloc, given, Asked::RestJson1)?)),
        "AwsJson::request" => Ok(Some(job_told(alloc, given, Asked::AwsJson)?)),
        _ => Ok(None),
    }
}

// What is told of a row's job.
fn job_told(alloc: Global, given: &Value, asked: Asked) -> Result<Text, Failed> {
    let bytes = job_bytes(alloc, given)?;
    let mut scratch = Scratch::new(alloc);
    let value = match read_json(alloc, bytes.as_slice(), &mut scratch) {
        Ok(value) => value,
        Err(refusal) => return no_job(alloc, refusal.into()),
    };
    let Job {
        table,
        index,
        further,
        writes,
        endpoint,
        omit,
    } = match read_job(alloc, &value) {
        Ok(job) => job,
        Err(refusal) => return no_job(alloc, refusal),
    };
    let Some(schema) = table.get(index) else {
        return Err(Failed);
    };
    let nodes = further.as_ref().unwrap_or(&table);
    let input = StructValue::with_writes(nodes, index, writes);
    match asked {
        Asked::Ready => ready_text(alloc, schema, input),
        Asked::RestJson1 => rest_json1_text(alloc, schema, input, endpoint, omit),
        Asked::AwsJson => aws_json_text(alloc, given, schema, input, endpoint, omit),
    }
}

// The writes, made ready.
fn ready_text<'t>(
    alloc: Global,
    schema: SchemaRef<'t>,
    input: StructValue<'t>,
) -> Result<Text, Failed> {
    let ready = ReadyInput::of(alloc, schema, input)?;
    let recorded = record_members(alloc, &ready).map_err(|_| Failed)?;
    writes_text(alloc, recorded.table(), recorded.writes())
}

// The request of restJson1; `None` where none is made by the schema.
fn rest_json1_text(
    alloc: Global,
    schema: SchemaRef<'_>,
    input: StructValue<'_>,
    endpoint: &str,
    omit: OmitFlags,
) -> Result<Text, Failed> {
    match RestJson1Input::new(alloc, schema)? {
        Some(by) => {
            rest_json1_requests_tell(&by);
            outcome_text(alloc, by.request(alloc, input, endpoint, omit))
        }
        None => Ok(Text::from_str(alloc, "None")?),
    }
}

// The request of AWS JSON, in the version and of the service of the row.
fn aws_json_text(
    alloc: Global,
    given: &Value,
    schema: SchemaRef<'_>,
    input: StructValue<'_>,
    endpoint: &str,
    omit: OmitFlags,
) -> Result<Text, Failed> {
    let call = AwsJson {
        version: version_of(given)?,
        service: shape_id(given, "service")?,
        is_query_compatible: flag_of(given, "isQueryCompatible"),
    };
    let operation = shape_id(given, "operation")?;
    outcome_text(
        alloc,
        call.request(alloc, schema, operation, input, endpoint, omit),
    )
}

// The version that has the protocol's name under `protocol`.
fn version_of(given: &Value) -> Result<AwsJsonVersion, Failed> {
    let name = text_of(given, "protocol")?;
    if name == AwsJsonVersion::V1_0.protocol_id().as_str() {
        return Ok(AwsJsonVersion::V1_0);
    }
    if name == AwsJsonVersion::V1_1.protocol_id().as_str() {
        return Ok(AwsJsonVersion::V1_1);
    }
    Err(Failed)
}

fn shape_id<'g>(given: &'g Value, key: &str) -> Result<ShapeId<'g>, Failed> {
    ShapeId::parse(text_of(given, key)?).ok_or(Failed)
}
