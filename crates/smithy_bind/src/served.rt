// The command `answer`: the response of an output.
ghost use Rattle.std.specs.Prelude.{◌≤◌, IsTrue, Result};
ghost use Rattle.smithy_http.specs.Responses.{Response as Sent};
ghost use Rattle.smithy_json.specs.JsonView.{view};
ghost use Rattle.smithy_schema.specs.References.{schema_of};
ghost use Rattle.smithy_serde.specs.StructValues.{members_of};
ghost use Rattle.smithy_binding.specs.CheckedOutput.{checked_output as checked};
ghost use Rattle.smithy_binding.specs.Faults.{Fault};
ghost use Rattle.smithy_binding.specs.Refusing.{Answers};
ghost use Rattle.smithy_bind.specs.Outcome.{json_bodies, served_to};
ghost use Rattle.smithy_bind.specs.Shown.{shown_response};
ghost use Rattle.smithy_bind.specs.Told.{told_by};
ghost use Rattle.smithy_bind.specs.views.AnswerView.{Gives};
ghost use Rattle.smithy_bind.specs.views.ServedView.{Serves, IsServed};

use crate::shown::shown_response;
use crate::told::{Answer, refused};
use smithy_binding::{HttpBindingProtocol, checked_output};
use smithy_http::Response;
use smithy_job::{Written, read_answering};
use smithy_json::JsonValue;
use smithy_model::JobError;
use smithy_schema::SchemaRef;
use smithy_serde::{Codec, SerdeError, StructValue};
use smithy_serve::write_response;
use std::alloc::Global;

/// What is to be told of the output that a JSON value has. Takes memory. No job where it is none, or where no response can be
/// written by its schema. Condition: the codec, which writes the body, is lawful.
#[tactic(auto, unfolding(crate::specs::Outcome::served_to))]
pub fn served<C: Codec + Drop>(
    alloc: Global,
    codec: C,
    value: &JsonValue<'_>,
) -> Result<Answer, JobError>
    requires { C.lawful codec }
    ensures { Gives (served_to (json_bodies (C.text codec)) (view value.now)) result }
{
    let job = read_answering(alloc, value)?;
    let code = job.code;
    let Written {
        table,
        index,
        further,
        writes,
    } = job.output;
    let Some(schema) = table.get(index) else {
        unreachable!()
    };
    let nodes = further.as_ref().unwrap_or(&table);
    let output = StructValue::with_writes(nodes, index, writes);
    output_told(alloc, codec, schema, &output, code)
}

// What is to be told of an output, by its schema. No job where no response can be written by it.
#[tactic(auto, unfolding(crate::specs::Serving::served_by))]
fn output_told<C: Codec + Drop>(
    alloc: Global,
    codec: C,
    schema: SchemaRef<'_>,
    output: &StructValue<'_>,
    code: u16,
) -> Result<Answer, JobError>
    requires lawful { C.lawful codec }
    requires code { (100 ≤ code) × (code ≤ 999) }
    ensures { Serves (C.text codec) schema.entry (members_of output.now) code result }
{
    if !checked_output(alloc, schema)? {
        return Err(JobError::NoJob);
    }
    told(alloc, written(alloc, codec, schema, output, code))
}

// The response of an output by its schema, with a body of JSON by a codec (AWS restJson1), or its first fault. Takes memory.
fn written<C: Codec + Drop>(
    alloc: Global,
    codec: C,
    schema: SchemaRef<'_>,
    output: &StructValue<'_>,
    code: u16,
) -> Result<Response, SerdeError>
    requires checked { IsTrue (checked (schema_of schema)) }
    requires lawful { C.lawful codec }
    requires code { (100 ≤ code) × (code ≤ 999) }
    ensures { IsServed (C.text codec) schema.entry (members_of output.now) code result }
{
    let protocol = HttpBindingProtocol::rest_json(codec);
    write_response(alloc, &protocol, output, schema, code)
}

// What is told of a response that was written or refused: itself as text, or the line of the refusal. Takes memory.
fn told(alloc: Global, made: Result<Response, SerdeError>) -> Result<Answer, JobError>
    ensures { (answer : Result Sent Fault) → Answers made answer → Gives (told_by shown_response answer) result }
{
    match made {
        Ok(response) => Ok(Answer::Output(shown_response(alloc, &response)?)),
        Err(refusal) => refused(alloc, &refusal),
    }
}
