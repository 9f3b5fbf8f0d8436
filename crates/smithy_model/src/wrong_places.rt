// The first wrong place of a model, as far as an operation reaches.
ghost use Rattle.std.specs.Prelude.{◌≡◌, option_map, IfOk};
ghost use Rattle.smithy_json.specs.views.JsonView.{view};
ghost use Rattle.smithy_model.specs.WrongModels.{shapes_in, wrong_model, wrong_asked, wrong_found, wrong_cited, wrong_by, wrong_in_shapes, wrong_errors_found, wrong_by_errors, wrong_in_errors, may_have, may_have_http};
ghost use Rattle.smithy_model.specs.views.ModelView.{asked_view, shapes_view};
ghost use Rattle.smithy_model.specs.views.NameView.{texts};
ghost use Rattle.smithy_model.specs.views.WrongView.{Finds, from_asked, from_errors};

use crate::error::JobError;
use crate::model_shapes::ModelShapes;
use crate::operation::{name_asked, operation_at};
use crate::shape::{Asked, Operation};
use crate::shapes::found_at;
use crate::wrong::{Wrong, in_key, unless_at, unless_here};
use crate::wrong_operation::{wrong_citing_at, wrong_errors_at, wrong_operation};
use crate::wrong_reached::wrong_reached;
use crate::wrong_shapes::is_object;
use smithy_json::JsonValue;
use smithy_types::OutOfMemory;
use std::alloc::Global;

/// The shapes of a model. It goes over their names once, and takes no memory. None where it has no object of them.
pub fn shapes_of<'v, 't>(model: &'v JsonValue<'t>) -> Option<ModelShapes<'v, 't>>
    ensures { option_map shapes_view result ≡ shapes_in (view model.now) }
{
    ModelShapes::of(model.get("shapes")?)
}

/// The first wrong place of a model, whatever its shapes. Takes memory.
#[tactic(auto, unfolding(crate::specs::WrongModels::wrong_model))]
pub fn wrong_model(alloc: Global, model: &JsonValue<'_>) -> Result<Option<Wrong>, OutOfMemory>
    ensures { Finds (wrong_model (view model.now)) result }
{
    let words = "an object with `shapes` is asked";
    if let Some(wrong) = unless_here(alloc, is_object(model), words)? {
        return Ok(Some(wrong));
    }
    unless_at(
        alloc,
        shapes_of(model).is_some(),
        "shapes",
        "an object from full names to shapes is asked",
    )
}

// The input or the output of an operation, where it is asked for, has to be there.
#[tactic(auto, unfolding(crate::specs::WrongModels::wrong_asked))]
fn wrong_asked(
    alloc: Global,
    shapes: &ModelShapes<'_, '_>,
    asked: Asked<'_>,
    operation: &JsonValue<'_>,
) -> Result<Option<Wrong>, OutOfMemory>
    ensures { Finds (wrong_asked (shapes_view shapes.now) (asked_view asked.entry) (view operation.now)) result }
{
    match asked {
        Asked::Input => wrong_citing_at(alloc, shapes, "input", operation),
        Asked::Output => wrong_citing_at(alloc, shapes, "output", operation),
        Asked::Error(_) => Ok(None),
    }
}

// The operation of this name, where there is one.
fn wrong_found(
    alloc: Global,
    shapes: &ModelShapes<'_, '_>,
    name: &str,
) -> Result<Option<Wrong>, OutOfMemory>
    ensures { Finds (wrong_found (shapes_view shapes.now) name.now) result }
{
    match found_at(shapes, name) {
        Some(operation) => in_key(alloc, name, wrong_operation(alloc, operation)?),
        None => Ok(None),
    }
}

// What is asked of the operation of this name, where there is one.
fn wrong_cited(
    alloc: Global,
    shapes: &ModelShapes<'_, '_>,
    asked: Asked<'_>,
    name: &str,
) -> Result<Option<Wrong>, OutOfMemory>
    ensures { Finds (wrong_cited (asked_view asked.entry) (shapes_view shapes.now) name.now) result }
{
    match found_at(shapes, name) {
        Some(operation) => in_key(alloc, name, wrong_asked(alloc, shapes, asked, operation)?),
        None => Ok(None),
    }
}

// The shapes that are reached from what is asked of an operation.
fn wrong_from<'t>(
    alloc: Global,
    shapes: &ModelShapes<'_, 't>,
    asked: Asked<'_>,
    operation: &Operation<'t>,
) -> Result<Option<Wrong>, OutOfMemory>
    ensures { Finds (from_asked asked.entry shapes.now operation.now) result }
{
    match name_asked(operation, asked) {
        Some(root) => wrong_reached(alloc, shapes, &[root]),
        None => Ok(None),
    }
}

// The same of the operation of this name, where it has its form.
fn wrong_by(
    alloc: Global,
    shapes: &ModelShapes<'_, '_>,
    asked: Asked<'_>,
    name: &str,
) -> Result<Option<Wrong>, OutOfMemory>
    ensures { Finds (wrong_by (asked_view asked.entry) (shapes_view shapes.now) name.now) result }
{
    match operation_at(alloc, shapes, name) {
        Ok(operation) => wrong_from(alloc, shapes, asked, &operation),
        Err(JobError::NoJob) => Ok(None),
        Err(JobError::OutOfMemory) => Err(OutOfMemory),
    }
}

/// The first place among the shapes of a model that keeps what is asked of the operation of this name from being read: of the
/// operation, then of the shapes that are reached, in the order in which they are met. Each shape is looked at once, in time
/// linear in the model up to the logarithm of a map. None where there is no such place, or no such operation. Takes memory.
#[tactic(auto, unfolding(crate::specs::WrongModels::wrong_in_shapes))]
pub fn wrong_in_shapes(
    alloc: Global,
    shapes: &ModelShapes<'_, '_>,
    name: &str,
    asked: Asked<'_>,
) -> Result<Option<Wrong>, OutOfMemory>
    ensures { Finds (wrong_in_shapes (asked_view asked.entry) (shapes_view shapes.now) name.now) result }
{
    if let Some(wrong) = wrong_found(alloc, shapes, name)? {
        return Ok(Some(wrong));
    }
    if let Some(wrong) = wrong_cited(alloc, shapes, asked, name)? {
        return Ok(Some(wrong));
    }
    wrong_by(alloc, shapes, asked, name)
}

// The errors of the operation of this name, where there is one.
fn wrong_errors_found(
    alloc: Global,
    shapes: &ModelShapes<'_, '_>,
    name: &str,
) -> Result<Option<Wrong>, OutOfMemory>
    ensures { Finds (wrong_errors_found (shapes_view shapes.now) name.now) result }
{
    match found_at(shapes, name) {
        Some(operation) => in_key(alloc, name, wrong_errors_at(alloc, shapes, operation)?),
        None => Ok(None),
    }
}

// The shapes that are reached from the errors of an operation and of its service.
fn wrong_from_errors<'t>(
    alloc: Global,
    shapes: &ModelShapes<'_, 't>,
    service: &[&'t str],
    operation: &Operation<'t>,
) -> Result<Option<Wrong>, OutOfMemory>
    ensures { Finds (from_errors service.now shapes.now operation.now) result }
{
    let mut names = Vec::from_slice(alloc, operation.errors.as_slice())?;
    names.extend_from_slice(service)?;
    wrong_reached(alloc, shapes, names.as_slice())
}

// The same of the operation of this name, where it has its form.
fn wrong_by_errors<'t>(
    alloc: Global,
    shapes: &ModelShapes<'_, 't>,
    service: &[&'t str],
    name: &str,
) -> Result<Option<Wrong>, OutOfMemory>
    ensures { Finds (wrong_by_errors (texts service.now) (shapes_view shapes.now) name.now) result }
{
    match operation_at(alloc, shapes, name) {
        Ok(operation) => wrong_from_errors(alloc, shapes, service, &operation),
        Err(JobError::NoJob) => Ok(None),
        Err(JobError::OutOfMemory) => Err(OutOfMemory),
    }
}

/// The same of all errors of the operation, and of these of its service. Takes memory.
#[tactic(auto, unfolding(crate::specs::WrongModels::wrong_in_errors))]
pub fn wrong_in_errors<'t>(
    alloc: Global,
    shapes: &ModelShapes<'_, 't>,
    name: &str,
    service: &[&'t str],
) -> Result<Option<Wrong>, OutOfMemory>
    ensures { Finds (wrong_in_errors (texts service.now) (shapes_view shapes.now) name.now) result }
{
    if let Some(wrong) = wrong_found(alloc, shapes, name)? {
        return Ok(Some(wrong));
    }
    if let Some(wrong) = wrong_errors_found(alloc, shapes, name)? {
        return Ok(Some(wrong));
    }
    wrong_by_errors(alloc, shapes, service, name)
}

/// Whether the operation of this name, where it has its form, has what is asked: an error is one of its own. Takes memory.
#[tactic(auto, unfolding(crate::specs::WrongModels::may_have))]
pub fn may_have(
    alloc: Global,
    shapes: &ModelShapes<'_, '_>,
    name: &str,
    asked: Asked<'_>,
) -> Result<bool, OutOfMemory>
    ensures { IfOk result (λ b. b ≡ may_have (asked_view asked.entry) (shapes_view shapes.now) name.now) }
{
    match operation_at(alloc, shapes, name) {
        Ok(operation) => Ok(name_asked(&operation, asked).is_some()),
        Err(JobError::NoJob) => Ok(true),
        Err(JobError::OutOfMemory) => Err(OutOfMemory),
    }
}

/// Whether the operation of this name, where it has its form, has `@http`. Takes memory.
#[tactic(auto, unfolding(crate::specs::WrongModels::may_have_http))]
pub fn may_have_http(
    alloc: Global,
    shapes: &ModelShapes<'_, '_>,
    name: &str,
) -> Result<bool, OutOfMemory>
    ensures { IfOk result (λ b. b ≡ may_have_http (shapes_view shapes.now) name.now) }
{
    match operation_at(alloc, shapes, name) {
        Ok(operation) => Ok(operation.http.is_some()),
        Err(JobError::NoJob) => Ok(true),
        Err(JobError::OutOfMemory) => Err(OutOfMemory),
    }
}
