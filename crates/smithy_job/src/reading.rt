// A job.
ghost use Rattle.std.specs.Prelude.{◌≡◌, option_map};
ghost use Rattle.smithy_json.specs.views.JsonView.{view};
ghost use Rattle.smithy_model.specs.Reads.{Reads};
ghost use Rattle.smithy_model.specs.views.ModelView.{asked_view};
ghost use Rattle.smithy_model.specs.views.NameView.{texts};
ghost use Rattle.smithy_model.specs.views.PlacedView.{Places, PlacesErrors};
ghost use Rattle.smithy_job.specs.Answering.{operation_http};
ghost use Rattle.smithy_job.specs.Jobs.{job, job_with_floats, operation_in, schema, schema_at, errors_at};
ghost use Rattle.smithy_job.specs.views.KeysView.{operation_at};
ghost use Rattle.smithy_job.specs.views.Seen.{given_seen, operation_seen};
ghost use Rattle.smithy_job.specs.views.Tables.{ReadsAs};
ghost use Rattle.smithy_job.specs.views.JobView.{IsJob};

use crate::settings::{endpoint_of, omit_of};
use crate::written::read_written;
use smithy_ids::HttpTrait;
use smithy_json::JsonValue;
use smithy_model::{
    Asked, Floats, JobError, ModelTable, PlacedErrors, errors_with_floats, http_of_operation,
    schema_with_floats,
};
use smithy_schema::{SchemaIndex, Schemas};
use smithy_serde::{OmitFlags, WriteList};
use std::alloc::Global;

/// What is to be sent: the writes of an input, and the index of its schema in a table.
#[derive(Drop)]
pub struct Job<'t> {
    pub table: Schemas,
    pub index: SchemaIndex,
    /// The nodes of the writes where some of their names are no member's: those of `table`, and one for
    /// each such name. Else they are those of `table`.
    pub further: Option<Schemas>,
    pub writes: WriteList,
    pub endpoint: &'t str,
    pub omit: OmitFlags,
}

/// A model, and the full name of an operation, of what is to be these. Takes no memory.
pub fn operation_given<'v, 't>(
    model: Option<&'v JsonValue<'t>>,
    operation: Option<&JsonValue<'t>>,
) -> Option<(&'v JsonValue<'t>, &'t str)>
    ensures { option_map operation_seen result ≡ operation_at model.entry operation.entry }
{
    Some((model?, operation?.as_str()?))
}

// Those of a job.
fn operation_of<'v, 't>(job: &'v JsonValue<'t>) -> Option<(&'v JsonValue<'t>, &'t str)>
    ensures { option_map operation_seen result ≡ operation_in (view job.now) }
{
    operation_given(job.get("model"), job.get("operation"))
}

/// The schema of what is asked of an operation of a model. Takes memory. No job where the model hasn't the form of one.
#[tactic(auto, unfolding(crate::specs::Jobs::schema_at))]
pub fn schema_at<'t>(
    alloc: Global,
    operation: Option<(&JsonValue<'t>, &'t str)>,
    asked: Asked<'t>,
    floats: Floats,
) -> Result<ModelTable, JobError>
    ensures { Places (schema_at floats (asked_view asked.entry) (given_seen operation.entry)) result }
{
    match operation {
        Some((model, name)) => schema_with_floats(alloc, model, name, asked, floats),
        None => Err(JobError::NoJob),
    }
}

/// The schema of what is asked of a job's operation. Takes memory. No job where its model hasn't the form of one.
#[tactic(auto, unfolding(crate::specs::Jobs::schema))]
pub fn schema_asked<'t>(
    alloc: Global,
    job: &JsonValue<'t>,
    asked: Asked<'t>,
    floats: Floats,
) -> Result<ModelTable, JobError>
    ensures { Places (schema floats (asked_view asked.entry) (view job.now)) result }
{
    schema_at(alloc, operation_of(job), asked, floats)
}

/// The errors of an operation of a model, and these of its service. Takes memory. No job where the model hasn't the form of one.
#[tactic(auto, unfolding(crate::specs::Jobs::errors_at))]
pub fn errors_at<'t>(
    alloc: Global,
    given: Option<(&JsonValue<'t>, &'t str)>,
    service: &[&'t str],
    floats: Floats,
) -> Result<PlacedErrors, JobError>
    ensures { PlacesErrors (errors_at floats (texts service.now) (given_seen given.entry)) result }
{
    match given {
        Some((model, name)) => errors_with_floats(alloc, model, name, service, floats),
        None => Err(JobError::NoJob),
    }
}

/// `@http` of a job's operation, where it has one. Takes memory. No job where its model hasn't the form of one.
#[tactic(auto, unfolding(crate::specs::Answering::operation_http))]
pub fn http_asked<'t>(alloc: Global, job: &JsonValue<'t>) -> Result<Option<HttpTrait<'t>>, JobError>
    ensures { Reads (λ h. h) (operation_http (view job.now)) result }
{
    match operation_of(job) {
        Some((model, name)) => http_of_operation(alloc, model, name),
        None => Err(JobError::NoJob),
    }
}

/// The job that a JSON value is, with the floats of its model as they are or as decimals; then a whole number of 64 bits
/// where a decimal stands is the text of its digits. Takes memory. What hasn't the form of one is no job.
#[tactic(auto, unfolding(crate::specs::Jobs::job_with_floats))]
pub fn read_job_with_floats<'t>(
    alloc: Global,
    value: &JsonValue<'t>,
    floats: Floats,
) -> Result<Job<'t>, JobError>
    ensures { ReadsAs IsJob (job_with_floats floats (view value.now)) result }
{
    let Some(endpoint) = endpoint_of(value) else {
        return Err(JobError::NoJob);
    };
    let Some(omit) = omit_of(value) else {
        return Err(JobError::NoJob);
    };
    let written = read_written(alloc, value, Asked::Input, "input", floats)?;
    Ok(Job {
        table: written.table,
        index: written.index,
        further: written.further,
        writes: written.writes,
        endpoint,
        omit,
    })
}

/// The same with its floats as they are.
#[tactic(auto, unfolding(crate::specs::Jobs::job))]
pub fn read_job<'t>(alloc: Global, value: &JsonValue<'t>) -> Result<Job<'t>, JobError>
    ensures { ReadsAs IsJob (job (view value.now)) result }
{
    read_job_with_floats(alloc, value, Floats::Kept)
}
