// The first wrong place of the shapes that a job reaches.
ghost use Rattle.std.specs.Prelude.{◌≡◌, is_some, option_map, IfOk};
ghost use Rattle.smithy_json.specs.views.JsonView.{view};
ghost use Rattle.smithy_model.specs.Wrong.{in_item, first_item};
ghost use Rattle.smithy_model.specs.WrongModels.{wrong_name};
ghost use Rattle.smithy_model.specs.views.ModelView.{asked_view, shapes_view};
ghost use Rattle.smithy_model.specs.views.NameView.{texts};
ghost use Rattle.smithy_model.specs.views.WrongView.{Finds, wrong_view};
ghost use Rattle.smithy_job.specs.WrongJobs.{in_model_shapes, wrong_asked_of, wrong_shapes, wrong_service, wrong_errors_of, wrong_coded_by, wrong_coded, wrong_expected, wrong_operation_code_at, wrong_operation_code};
ghost use Rattle.smithy_job.specs.Answering.{operation_code};

use crate::answering::operation_code;
use crate::received::service_errors;
use crate::wrong_keys::shapes_given;
use smithy_json::JsonValue;
use smithy_model::{
    Asked, JobError, ModelShapes, Wrong, in_item, in_key, text_of, unless_at, wrong_in_errors,
    wrong_in_shapes, wrong_name,
};
use smithy_types::OutOfMemory;
use std::alloc::Global;

/// What was found among the shapes of a model. Takes memory.
pub fn in_model_shapes(alloc: Global, found: Option<Wrong>) -> Result<Option<Wrong>, OutOfMemory>
    ensures { Finds (in_model_shapes (option_map wrong_view found)) result }
{
    in_key(alloc, "model", in_key(alloc, "shapes", found)?)
}

// The shapes that are reached from what is asked of the operation of this name.
fn wrong_asked_of(
    alloc: Global,
    asked: Asked<'_>,
    job: &JsonValue<'_>,
    name: &str,
) -> Result<Option<Wrong>, OutOfMemory>
    ensures { Finds (wrong_asked_of (asked_view asked.entry) (view job.now) name.now) result }
{
    match shapes_given(job) {
        Some(shapes) => in_model_shapes(alloc, wrong_in_shapes(alloc, &shapes, name, asked)?),
        None => Ok(None),
    }
}

/// The first wrong place of the shapes that are reached from what is asked of a job's operation. Takes memory.
#[tactic(auto, unfolding(crate::specs::WrongJobs::wrong_shapes))]
pub fn wrong_shapes(
    alloc: Global,
    asked: Asked<'_>,
    job: &JsonValue<'_>,
) -> Result<Option<Wrong>, OutOfMemory>
    ensures { Finds (wrong_shapes (asked_view asked.entry) (view job.now)) result }
{
    match text_of(job, "operation") {
        Some(name) => wrong_asked_of(alloc, asked, job, name),
        None => Ok(None),
    }
}

// The name at a position has to be there.
fn wrong_name_at(
    alloc: Global,
    shapes: &ModelShapes<'_, '_>,
    position: usize,
    name: &str,
) -> Result<Option<Wrong>, OutOfMemory>
    ensures { Finds (in_item position (wrong_name (shapes_view shapes.now) name.now)) result }
{
    in_item(position, wrong_name(alloc, shapes, name)?)
}

fn wrong_name_in(
    alloc: Global,
    shapes: &ModelShapes<'_, '_>,
    names: &[&str],
) -> Result<Option<Wrong>, OutOfMemory>
    ensures { Finds (first_item (wrong_name (shapes_view shapes.now)) 0 (texts names.now)) result }
{
    for (position, name) in names.iter().enumerate() {
        if let Some(wrong) = wrong_name_at(alloc, shapes, position, *name)? {
            return Ok(Some(wrong));
        }
    }
    Ok(None)
}

// The errors of a service have to be there.
fn wrong_service(
    alloc: Global,
    job: &JsonValue<'_>,
    names: &[&str],
) -> Result<Option<Wrong>, OutOfMemory>
    ensures { Finds (wrong_service (view job.now) (texts names.now)) result }
{
    match shapes_given(job) {
        Some(shapes) => in_key(
            alloc,
            "serviceErrors",
            wrong_name_in(alloc, &shapes, names)?,
        ),
        None => Ok(None),
    }
}

// The shapes that are reached from the errors of the operation of this name and from these.
fn wrong_errors_of<'t>(
    alloc: Global,
    names: &[&'t str],
    job: &JsonValue<'t>,
    name: &str,
) -> Result<Option<Wrong>, OutOfMemory>
    ensures { Finds (wrong_errors_of (texts names.now) (view job.now) name.now) result }
{
    match shapes_given(job) {
        Some(shapes) => in_model_shapes(alloc, wrong_in_errors(alloc, &shapes, name, names)?),
        None => Ok(None),
    }
}

#[tactic(auto, unfolding(crate::specs::WrongJobs::wrong_coded_by))]
fn wrong_coded_by<'t>(
    alloc: Global,
    job: &JsonValue<'t>,
    names: &[&'t str],
) -> Result<Option<Wrong>, OutOfMemory>
    ensures { Finds (wrong_coded_by (view job.now) (texts names.now)) result }
{
    if let Some(wrong) = wrong_service(alloc, job, names)? {
        return Ok(Some(wrong));
    }
    match text_of(job, "operation") {
        Some(name) => wrong_errors_of(alloc, names, job, name),
        None => Ok(None),
    }
}

fn wrong_coded(alloc: Global, job: &JsonValue<'_>) -> Result<Option<Wrong>, OutOfMemory>
    ensures { Finds (wrong_coded (view job.now)) result }
{
    match service_errors(alloc, job.get("serviceErrors")) {
        Ok(names) => wrong_coded_by(alloc, job, names.as_slice()),
        Err(JobError::NoJob) => Ok(None),
        Err(JobError::OutOfMemory) => Err(OutOfMemory),
    }
}

/// The first wrong place of the shapes that are reached from what a response is read as. Takes memory.
#[tactic(auto, unfolding(crate::specs::WrongJobs::wrong_expected))]
pub fn wrong_expected(alloc: Global, job: &JsonValue<'_>) -> Result<Option<Wrong>, OutOfMemory>
    ensures { Finds (wrong_expected (view job.now)) result }
{
    let Some(error) = job.get("error") else {
        return match job.get("code") {
            Some(_) => wrong_coded(alloc, job),
            None => wrong_shapes(alloc, Asked::Output, job),
        };
    };
    match error.as_str() {
        Some(name) => wrong_shapes(alloc, Asked::Error(name), job),
        None => Ok(None),
    }
}

// Whether the code of a job's operation has its form.
fn fits_code(alloc: Global, job: &JsonValue<'_>) -> Result<bool, OutOfMemory>
    ensures { IfOk result (λ b. b ≡ is_some (operation_code (view job.now))) }
{
    match operation_code(alloc, job) {
        Ok(_) => Ok(true),
        Err(JobError::NoJob) => Ok(false),
        Err(JobError::OutOfMemory) => Err(OutOfMemory),
    }
}

// The code of the operation of this name.
fn wrong_operation_code_at(
    alloc: Global,
    job: &JsonValue<'_>,
    name: &str,
) -> Result<Option<Wrong>, OutOfMemory>
    ensures { Finds (wrong_operation_code_at (view job.now) name.now) result }
{
    let fits = fits_code(alloc, job)?;
    let words = "a whole number from 100 to 999 is asked, or `status` in the job";
    let found = unless_at(alloc, fits, "code", words)?;
    let found = in_key(alloc, "smithy.api#http", found)?;
    let found = in_key(alloc, "traits", found)?;
    in_model_shapes(alloc, in_key(alloc, name, found)?)
}

/// The code of a job's operation, which counts where the job has no status. Takes memory.
#[tactic(auto, unfolding(crate::specs::WrongJobs::wrong_operation_code))]
pub fn wrong_operation_code(
    alloc: Global,
    job: &JsonValue<'_>,
) -> Result<Option<Wrong>, OutOfMemory>
    ensures { Finds (wrong_operation_code (view job.now)) result }
{
    if let Some(_) = job.get("status") {
        return Ok(None);
    }
    match text_of(job, "operation") {
        Some(name) => wrong_operation_code_at(alloc, job, name),
        None => Ok(None),
    }
}
