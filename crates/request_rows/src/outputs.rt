// Outputs of jobs: as they are read, and what they have in a response, from writes that are lent and from writes that are told.
ghost use Rattle.std.specs.Prelude.{IsTrue};
ghost use Rattle.smithy_schema.specs.References.{schema_of};
ghost use Rattle.smithy_binding.specs.CheckedOutput.{checked_output as checked};

use crate::given_job::job_bytes;
use crate::told::{no_job, push_headers, refusal_text, same_text, writes_text};
use crate::told_input::ToldInput;
use serde_json::Value;
use smithy_binding::{HttpBindingProtocol, PlacedOutput, checked_output};
use smithy_document::{JsonCodec, json_is_lawful};
use smithy_job::{Answering, Written, read_answering};
use smithy_json::{JsonValue, Scratch, read_json};
use smithy_model::{JobError, http_of_operation, text_of};
use smithy_schema::SchemaRef;
use smithy_serde::{Codec, SerdeError, SerializableStruct, StructValue};
use smithy_types::{Text, Words};
use std::alloc::Global;
use test_rows::{Failed, told_bytes};

/// The answer of one of these calls; none of another.
pub fn answer(alloc: Global, call: &str, given: &Value) -> Result<Option<Text>, Failed> {
    match call {
        "http_of_operation" => Ok(Some(by_job(alloc, given, Told::Http)?)),
        "read_answering" => Ok(Some(by_job(alloc, given, Told::Job)?)),
        "HttpBindingProtocol::place_output" => Ok(Some(by_job(alloc, given, Told::Placed)?)),
        _ => Ok(None),
    }
}

// What is told of a job.
#[derive(Clone, Copy)]
enum Told {
    Http,
    Job,
    Placed,
}

fn by_job(alloc: Global, given: &Value, told: Told) -> Result<Text, Failed> {
    let bytes = job_bytes(alloc, given)?;
    let mut scratch = Scratch::new(alloc);
    let job = match read_json(alloc, bytes.as_slice(), &mut scratch) {
        Ok(job) => job,
        Err(refusal) => return no_job(alloc, refusal.into()),
    };
    match told {
        Told::Http => http(alloc, &job),
        Told::Job => answering(alloc, &job),
        Told::Placed => placed(alloc, &job),
    }
}

// Method, template and code of the operation.
fn http(alloc: Global, job: &JsonValue<'_>) -> Result<Text, Failed> {
    let (Some(model), Some(name)) = (job.get("model"), text_of(job, "operation")) else {
        return no_job(alloc, JobError::NoJob);
    };
    match http_of_operation(alloc, model, name) {
        Ok(Some(http)) => {
            let (method, uri, code) = (http.method(), http.uri(), http.code());
            Ok(Text::from_string(format!(in alloc; "{method} {uri} {code}")?))
        }
        Ok(None) => Ok(Text::from_str(alloc, "None")?),
        Err(refusal) => no_job(alloc, refusal),
    }
}

fn answering(alloc: Global, job: &JsonValue<'_>) -> Result<Text, Failed> {
    match read_answering(alloc, job) {
        Ok(job) => answering_text(alloc, &job),
        Err(refusal) => no_job(alloc, refusal),
    }
}

// The writes, whether they have names that are no member's, and the status where the output has none.
fn answering_text(alloc: Global, job: &Answering) -> Result<Text, Failed> {
    let output = &job.output;
    let nodes = output.further.as_ref().unwrap_or(&output.table);
    let mut text = writes_text(alloc, nodes, &output.writes)?;
    if output.further.is_some() {
        text.push_str("further names; ")?;
    }
    let code = job.code;
    text.push_str(format!(in alloc; "code {code}")?.as_str())?;
    Ok(text)
}

fn placed(alloc: Global, job: &JsonValue<'_>) -> Result<Text, Failed> {
    let Answering { output, .. } = match read_answering(alloc, job) {
        Ok(job) => job,
        Err(refusal) => return no_job(alloc, refusal),
    };
    let Written {
        table,
        index,
        further,
        writes,
    } = output;
    let Some(schema) = table.get(index) else {
        return Err(Failed);
    };
    let nodes = further.as_ref().unwrap_or(&table);
    let output = StructValue::with_writes(nodes, index, writes);
    if !checked_output(alloc, schema)? {
        return Ok(Text::from_str(alloc, "no response by this schema")?);
    }
    let protocol = HttpBindingProtocol::rest_json(JsonCodec);
    json_is_lawful(protocol.codec());
    let mut answers = Words::new(alloc);
    place(alloc, &protocol, &output, schema, &mut answers)?;
    let told = ToldInput { value: output };
    place(alloc, &protocol, &told, schema, &mut answers)?;
    same_text(alloc, answers.as_slice())
}

// Adds what is told of an output by the call of the protocol.
fn place<C: Codec>(
    alloc: Global,
    protocol: &HttpBindingProtocol<C>,
    output: &dyn SerializableStruct,
    schema: SchemaRef<'_>,
    answers: &mut Words,
) -> Result<(), Failed>
    requires checked { IsTrue (checked (schema_of schema)) }
    requires lawful { C.lawful protocol.now.codec }
{
    let outcome = protocol.place_output(alloc, output, schema);
    answers.push(outcome_text(alloc, outcome)?.as_str())?;
    Ok(())
}

// The status, if there is one, the headers and the body, or the variant and the text of a refusal.
fn outcome_text(alloc: Global, outcome: Result<PlacedOutput, SerdeError>) -> Result<Text, Failed> {
    let placed = match outcome {
        Ok(placed) => placed,
        Err(refusal) => return refusal_text(alloc, &refusal),
    };
    let mut text = match placed.code {
        Some(code) => Text::from_string(format!(in alloc; "{code}\n")?),
        None => Text::from_str(alloc, "no code\n")?,
    };
    push_headers(alloc, &mut text, &placed.headers)?;
    text.push_str("\n")?;
    text.push_str(told_bytes(alloc, placed.body.as_slice())?.as_str())?;
    Ok(text)
}
