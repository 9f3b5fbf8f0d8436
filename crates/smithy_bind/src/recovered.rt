// The command `recover`: the input of a request.
ghost use Rattle.std.specs.Prelude.{List, Option};
ghost use Rattle.smithy_json.specs.JsonView.{view};
ghost use Rattle.smithy_serde.specs.StoredValues.{HasNode};
ghost use Rattle.smithy_serde.specs.Values.{Write};
ghost use Rattle.smithy_recovery.specs.Finding.{Finds};
ghost use Rattle.smithy_recovery.specs.Recovering.{IsCheckedAt};
ghost use Rattle.smithy_bind.specs.Outcome.{recovered_to};
ghost use Rattle.smithy_bind.specs.Recovering.{not_placed, shown_input};
ghost use Rattle.smithy_bind.specs.views.AnswerView.{Gives};
ghost use Rattle.smithy_bind.specs.views.RecoveredView.{FindsInput, TellsInput, writes_seen};

use crate::json_value::{document_told, json_codec};
use crate::told::Answer;
use smithy_binding::{HttpBindingProtocol, checked_input};
use smithy_job::{Recovering, read_recovering};
use smithy_json::JsonValue;
use smithy_model::JobError;
use smithy_recovery::{RecoverError, recover_request};
use smithy_schema::SchemaRef;
use smithy_serde::StructValue;
use std::alloc::Global;

// The line where no typed input has the request.
const NOT_PLACED: &str = "NotPlaced: no typed input has this request\n";

/// What is to be told of the input of the request that a JSON value has, with bodies of JSON (AWS restJson1). Takes memory. No job
/// where it is none, or where no request can be placed by its schema.
#[tactic(auto, unfolding(crate::specs::Outcome::recovered_to))]
pub fn recovered(alloc: Global, value: &JsonValue<'_>) -> Result<Answer, JobError>
    ensures { Gives (recovered_to (view value.now)) result }
{
    let job = read_recovering(alloc, value)?;
    job_told(alloc, &job)
}

/// What is to be told of the input of a job's request. Takes memory. No job where no request can be placed by its schema.
#[tactic(auto, unfolding(crate::specs::Recovering::recovered_by))]
pub fn job_told(alloc: Global, job: &Recovering<'_>) -> Result<Answer, JobError>
    requires { HasNode job.now.table job.now.index.0 }
    ensures { TellsInput job.now result }
{
    let Some(schema) = job.table.get(job.index) else {
        unreachable!()
    };
    if !checked_input(alloc, schema)? {
        return Err(JobError::NoJob);
    }
    input_told(alloc, schema, input_of(alloc, job))
}

// The input of a job's request, with a body of JSON.
fn input_of<'j>(alloc: Global, job: &'j Recovering<'_>) -> Result<StructValue<'j>, RecoverError>
    requires node { HasNode job.now.table job.now.index.0 }
    requires checked { IsCheckedAt job.now.table job.now.index.0 }
    ensures { FindsInput job.now result }
{
    let protocol = HttpBindingProtocol::rest_json(json_codec());
    recover_request(
        alloc,
        &protocol,
        &job.request,
        &job.table,
        job.index,
        job.endpoint,
        job.omit,
    )
}

// What is told of an input that was recovered, or of a request that has none. Takes memory.
#[tactic(auto, using(crate::proofs::WriteLemmas::writes_listed))]
fn input_told(
    alloc: Global,
    schema: SchemaRef<'_>,
    input: Result<StructValue<'_>, RecoverError>,
) -> Result<Answer, JobError>
    ensures { (is : Option (List Write)) → Finds writes_seen input.entry is → Gives (shown_input is) result }
{
    match input {
        Ok(value) => document_told(alloc, schema, &value),
        Err(RecoverError::NotPlaced) => not_placed(alloc),
        Err(RecoverError::OutOfMemory) => Err(JobError::OutOfMemory),
    }
}

/// What is told where no typed input has the request. Takes memory.
pub fn not_placed(alloc: Global) -> Result<Answer, JobError>
    ensures { Gives not_placed result }
{
    let line = Vec::from_slice(alloc, NOT_PLACED.as_bytes())?;
    Ok(Answer::Fault(line))
}
