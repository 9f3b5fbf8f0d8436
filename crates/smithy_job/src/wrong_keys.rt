// The first wrong place of what stands under the keys of a job, beside its messages and its shapes.
ghost use Rattle.std.specs.Prelude.{◌≡◌, map, option_map, IfOk};
ghost use Rattle.smithy_json.specs.views.JsonView.{view};
ghost use Rattle.smithy_model.specs.Wrong.{first_item};
ghost use Rattle.smithy_model.specs.views.ModelView.{shapes_view};
ghost use Rattle.smithy_model.specs.views.WrongView.{Finds};
ghost use Rattle.smithy_job.specs.WrongJobs.{shapes_given, is_operation_named, wrong_operation_named, wrong_operation_of, wrong_status, wrong_omit, wrong_omit_of, may_have_error, wrong_error_in, wrong_error_named, wrong_error_given, wrong_error, is_alone, wrong_code_given, wrong_code, wrong_full_name, wrong_full_names, wrong_service_given, wrong_service_errors};

use crate::received::full_name;
use crate::response::status_of;
use crate::settings::{content_length_of, content_type_of};
use smithy_json::JsonValue;
use smithy_model::{
    Asked, ModelShapes, Wrong, asked_at, asked_here, found_at, in_item, in_key, is_object,
    items_of, may_have, shapes_of, text_of, unless_at, unless_here, unless_named, wrong_name,
};
use smithy_types::OutOfMemory;
use std::alloc::Global;

/// The shapes of a job's model. It goes over their names once, and takes no memory. None where there is no object of them.
pub fn shapes_given<'v, 't>(job: &'v JsonValue<'t>) -> Option<ModelShapes<'v, 't>>
    ensures { option_map shapes_view result ≡ shapes_given (view job.now) }
{
    shapes_of(job.get("model")?)
}

// Whether the model, where it has shapes, has an operation of this name.
fn is_operation_named(job: &JsonValue<'_>, name: &str) -> bool
    ensures { result ≡ is_operation_named (view job.now) name.now }
{
    match shapes_given(job) {
        Some(shapes) => found_at(&shapes, name).is_some(),
        None => true,
    }
}

#[tactic(auto, unfolding(crate::specs::WrongJobs::wrong_operation_named))]
fn wrong_operation_named(
    alloc: Global,
    job: &JsonValue<'_>,
    name: &str,
) -> Result<Option<Wrong>, OutOfMemory>
    ensures { Finds (wrong_operation_named (view job.now) name.now) result }
{
    let is_one = is_operation_named(job, name);
    unless_named(alloc, is_one, name, " is no operation of the model")
}

/// The first wrong place of the name of a job's operation. Takes memory.
#[tactic(auto, unfolding(crate::specs::WrongJobs::wrong_operation_of))]
pub fn wrong_operation_of(alloc: Global, job: &JsonValue<'_>) -> Result<Option<Wrong>, OutOfMemory>
    ensures { Finds (wrong_operation_of (view job.now)) result }
{
    match text_of(job, "operation") {
        Some(name) => in_key(alloc, "operation", wrong_operation_named(alloc, job, name)?),
        None => Ok(Some(asked_at(alloc, "operation", "the full name of an operation is asked")?)),
    }
}

/// The status of a job of an output. Takes memory.
#[tactic(auto, unfolding(crate::specs::WrongJobs::wrong_status))]
pub fn wrong_status(alloc: Global, job: &JsonValue<'_>) -> Result<Option<Wrong>, OutOfMemory>
    ensures { Finds (wrong_status (view job.now)) result }
{
    match job.get("status") {
        Some(_) => unless_at(
            alloc,
            status_of(job).is_some(),
            "status",
            "a whole number from 100 to 999 is asked",
        ),
        None => Ok(None),
    }
}

#[tactic(auto, unfolding(crate::specs::WrongJobs::wrong_omit))]
fn wrong_omit(alloc: Global, omit: &JsonValue<'_>) -> Result<Option<Wrong>, OutOfMemory>
    ensures { Finds (wrong_omit (view omit.now)) result }
{
    if let Some(wrong) = unless_here(alloc, is_object(omit), "an object is asked")? {
        return Ok(Some(wrong));
    }
    let fits = content_type_of(omit).is_some();
    if let Some(wrong) = unless_at(alloc, fits, "contentType", "true or false is asked")? {
        return Ok(Some(wrong));
    }
    let fits = content_length_of(omit).is_some();
    unless_at(alloc, fits, "contentLength", "true or false is asked")
}

/// The first wrong place of the headers to be left out. Takes memory.
#[tactic(auto, unfolding(crate::specs::WrongJobs::wrong_omit_of))]
pub fn wrong_omit_of(alloc: Global, job: &JsonValue<'_>) -> Result<Option<Wrong>, OutOfMemory>
    ensures { Finds (wrong_omit_of (view job.now)) result }
{
    match job.get("omit") {
        Some(omit) => in_key(alloc, "omit", wrong_omit(alloc, omit)?),
        None => Ok(None),
    }
}

// Whether the operation of a job, where it has its form, has this error.
fn may_have_error(
    alloc: Global,
    name: &str,
    job: &JsonValue<'_>,
    shapes: &ModelShapes<'_, '_>,
) -> Result<bool, OutOfMemory>
    ensures { IfOk result (λ b. b ≡ may_have_error name.now (view job.now) (shapes_view shapes.now)) }
{
    match text_of(job, "operation") {
        Some(operation) => may_have(alloc, shapes, operation, Asked::Error(name)),
        None => Ok(true),
    }
}

fn wrong_error_in(
    alloc: Global,
    name: &str,
    job: &JsonValue<'_>,
    shapes: &ModelShapes<'_, '_>,
) -> Result<Option<Wrong>, OutOfMemory>
    ensures { Finds (wrong_error_in name.now (view job.now) (shapes_view shapes.now)) result }
{
    let is_one = may_have_error(alloc, name, job, shapes)?;
    let words = " is no error of the operation";
    if let Some(wrong) = unless_named(alloc, is_one, name, words)? {
        return Ok(Some(wrong));
    }
    wrong_name(alloc, shapes, name)
}

#[tactic(auto, unfolding(crate::specs::WrongJobs::wrong_error_named))]
fn wrong_error_named(
    alloc: Global,
    job: &JsonValue<'_>,
    name: &str,
) -> Result<Option<Wrong>, OutOfMemory>
    ensures { Finds (wrong_error_named (view job.now) name.now) result }
{
    match shapes_given(job) {
        Some(shapes) => wrong_error_in(alloc, name, job, &shapes),
        None => Ok(None),
    }
}

fn wrong_error_given(
    alloc: Global,
    job: &JsonValue<'_>,
    error: &JsonValue<'_>,
) -> Result<Option<Wrong>, OutOfMemory>
    ensures { Finds (wrong_error_given (view job.now) (view error.now)) result }
{
    match error.as_str() {
        Some(name) => wrong_error_named(alloc, job, name),
        None => Ok(Some(asked_here(alloc, "the full name of an error is asked")?)),
    }
}

/// The first wrong place of the error of a response. Takes memory.
#[tactic(auto, unfolding(crate::specs::WrongJobs::wrong_error))]
pub fn wrong_error(alloc: Global, job: &JsonValue<'_>) -> Result<Option<Wrong>, OutOfMemory>
    ensures { Finds (wrong_error (view job.now)) result }
{
    match job.get("error") {
        Some(error) => in_key(alloc, "error", wrong_error_given(alloc, job, error)?),
        None => Ok(None),
    }
}

fn is_alone(job: &JsonValue<'_>) -> bool
    ensures { result ≡ is_alone (view job.now) }
{
    job.get("error").is_none()
}

fn wrong_code_given(
    alloc: Global,
    job: &JsonValue<'_>,
    code: &JsonValue<'_>,
) -> Result<Option<Wrong>, OutOfMemory>
    ensures { Finds (wrong_code_given (view job.now) (view code.now)) result }
{
    let words = "nothing is asked beside `error`";
    if let Some(wrong) = unless_here(alloc, is_alone(job), words)? {
        return Ok(Some(wrong));
    }
    unless_here(alloc, code.as_str().is_some(), "a text is asked")
}

/// The first wrong place of the code of a response. Takes memory.
#[tactic(auto, unfolding(crate::specs::WrongJobs::wrong_code))]
pub fn wrong_code(alloc: Global, job: &JsonValue<'_>) -> Result<Option<Wrong>, OutOfMemory>
    ensures { Finds (wrong_code (view job.now)) result }
{
    match job.get("code") {
        Some(code) => in_key(alloc, "code", wrong_code_given(alloc, job, code)?),
        None => Ok(None),
    }
}

fn wrong_full_name(alloc: Global, name: &JsonValue<'_>) -> Result<Option<Wrong>, OutOfMemory>
    ensures { Finds (wrong_full_name (view name.now)) result }
{
    unless_here(
        alloc,
        full_name(name).is_some(),
        "the full name of an error is asked",
    )
}

fn wrong_full_name_in(alloc: Global, items: &[JsonValue<'_>]) -> Result<Option<Wrong>, OutOfMemory>
    ensures { Finds (first_item wrong_full_name 0 (map view items.now)) result }
{
    for (position, item) in items.iter().enumerate() {
        if let Some(wrong) = in_item(position, wrong_full_name(alloc, item)?)? {
            return Ok(Some(wrong));
        }
    }
    Ok(None)
}

#[tactic(auto, unfolding(crate::specs::WrongJobs::wrong_full_names))]
fn wrong_full_names(alloc: Global, names: &JsonValue<'_>) -> Result<Option<Wrong>, OutOfMemory>
    ensures { Finds (wrong_full_names (view names.now)) result }
{
    match items_of(names) {
        Some(items) => wrong_full_name_in(alloc, items),
        None => Ok(Some(asked_here(alloc, "an array of full names is asked")?)),
    }
}

fn wrong_service_given(
    alloc: Global,
    job: &JsonValue<'_>,
    names: &JsonValue<'_>,
) -> Result<Option<Wrong>, OutOfMemory>
    ensures { Finds (wrong_service_given (view job.now) (view names.now)) result }
{
    let words = "nothing is asked beside `error`";
    if let Some(wrong) = unless_here(alloc, is_alone(job), words)? {
        return Ok(Some(wrong));
    }
    wrong_full_names(alloc, names)
}

/// The first wrong place of the errors of a service. Takes memory.
#[tactic(auto, unfolding(crate::specs::WrongJobs::wrong_service_errors))]
pub fn wrong_service_errors(
    alloc: Global,
    job: &JsonValue<'_>,
) -> Result<Option<Wrong>, OutOfMemory>
    ensures { Finds (wrong_service_errors (view job.now)) result }
{
    match job.get("serviceErrors") {
        Some(names) => in_key(
            alloc,
            "serviceErrors",
            wrong_service_given(alloc, job, names)?,
        ),
        None => Ok(None),
    }
}
