// The operations of a model.
ghost use Rattle.std.specs.Prelude.{◌≡◌, codes, find, map, option_map};
ghost use Rattle.std.specs.Option.{option_copied};
ghost use Rattle.smithy_json.specs.views.JsonView.{view};
ghost use Rattle.serde_json.specs.Find.{get};
ghost use Rattle.smithy_types.specs.Results.{each};
ghost use Rattle.smithy_model.specs.Operations.{target_in, target_given, targets_given, http_among, http_given, is_operation, operation_with, operation_in, operation_at};
ghost use Rattle.smithy_model.specs.Names.{is};
ghost use Rattle.smithy_model.specs.Models.{name_asked};
ghost use Rattle.smithy_model.specs.Reads.{Reads};
ghost use Rattle.smithy_model.specs.views.ModelView.{asked_view, operation_view, shapes_view};
ghost use Rattle.smithy_model.specs.views.NameView.{texts};

use crate::error::JobError;
use crate::json_value::{items_of, text_of};
use crate::model_shapes::ModelShapes;
use crate::shape::{Asked, Operation};
use crate::shapes::{found_at, has_no_mixins};
use crate::traits::{fit_traits, read_http};
use smithy_ids::HttpTrait;
use smithy_json::JsonValue;
use std::alloc::Global;

fn target_of<'t>(operation: &JsonValue<'t>, key: &str) -> Option<&'t str>
    ensures { option_map (λ t. t.now) result ≡ target_given (get key.now (view operation.now)) }
{
    match operation.get(key) {
        Some(part) => text_of(part, "target"),
        None => Some("smithy.api#Unit"),
    }
}

fn targets_in<'t>(alloc: Global, items: &[JsonValue<'t>]) -> Result<Vec<&'t str>, JobError>
    ensures { Reads (λ v. texts v.items) (each target_in (map view items.now)) result }
{
    let mut found = Vec::with_capacity(alloc, items.len())?;
    for item in items {
        let Some(target) = text_of(item, "target") else {
            return Err(JobError::NoJob);
        };
        found.push(target)?;
    }
    Ok(found)
}

fn error_names<'t>(alloc: Global, operation: &JsonValue<'t>) -> Result<Vec<&'t str>, JobError>
    ensures { Reads (λ v. texts v.items) (targets_given (get (codes "errors") (view operation.now))) result }
{
    let Some(errors) = operation.get("errors") else {
        return Ok(Vec::new(alloc));
    };
    match items_of(errors) {
        Some(items) => targets_in(alloc, items),
        None => Err(JobError::NoJob),
    }
}

fn http_among<'t>(traits: &JsonValue<'t>) -> Option<Option<HttpTrait<'t>>>
    ensures { result ≡ http_among (get (codes "smithy.api#http") (view traits.now)) }
{
    match traits.get("smithy.api#http") {
        Some(http) => Some(Some(read_http(http)?)),
        None => Some(None),
    }
}

fn http_of<'t>(operation: &JsonValue<'t>) -> Option<Option<HttpTrait<'t>>>
    ensures { result ≡ http_given (get (codes "traits") (view operation.now)) }
{
    let Some(traits) = operation.get("traits") else {
        return Some(None);
    };
    drop(fit_traits(traits)?);
    http_among(traits)
}

/// Whether a shape is an operation without mixins. Takes no memory.
pub fn is_operation(shape: &JsonValue<'_>) -> bool
    ensures { result ≡ is_operation (view shape.now) }
{
    let has_type = match text_of(shape, "type") {
        Some(name) => name == "operation",
        None => false,
    };
    has_type && has_no_mixins(shape)
}

fn operation_with<'t>(
    alloc: Global,
    http: Option<HttpTrait<'t>>,
    shape: &JsonValue<'t>,
) -> Result<Operation<'t>, JobError>
    ensures { Reads operation_view (operation_with http.entry (view shape.now)) result }
{
    let Some(input) = target_of(shape, "input") else {
        return Err(JobError::NoJob);
    };
    let Some(output) = target_of(shape, "output") else {
        return Err(JobError::NoJob);
    };
    let errors = error_names(alloc, shape)?;
    Ok(Operation {
        http,
        input,
        output,
        errors,
    })
}

fn operation_in<'t>(alloc: Global, shape: &JsonValue<'t>) -> Result<Operation<'t>, JobError>
    ensures { Reads operation_view (operation_in (view shape.now)) result }
{
    if !is_operation(shape) {
        return Err(JobError::NoJob);
    }
    match http_of(shape) {
        Some(http) => operation_with(alloc, http, shape),
        None => Err(JobError::NoJob),
    }
}

/// The operation of this name among the shapes of a model (Smithy, operation shape). Takes memory for the list of its errors.
///
/// No job where there is none, or one that hasn't its form.
#[tactic(auto, unfolding(crate::specs::Operations::operation_at))]
pub fn operation_at<'t>(
    alloc: Global,
    shapes: &ModelShapes<'_, 't>,
    name: &str,
) -> Result<Operation<'t>, JobError>
    ensures { Reads operation_view (operation_at (shapes_view shapes.now) name.now) result }
{
    match found_at(shapes, name) {
        Some(shape) => operation_in(alloc, shape),
        None => Err(JobError::NoJob),
    }
}

fn error_named<'t>(errors: &[&'t str], name: &str) -> Option<&'t str>
    ensures { option_map (λ t. t.now) result ≡ find (λ e. is e name.now) (texts errors.now) }
{
    for error in errors {
        if *error == name {
            return Some(*error);
        }
    }
    None
}

/// The full name of the shape of what is asked. None where it is no error of the operation. Takes no memory.
pub fn name_asked<'t>(operation: &Operation<'t>, asked: Asked<'_>) -> Option<&'t str>
    ensures { option_copied result ≡ name_asked (asked_view asked.entry) (operation_view operation.now) }
{
    match asked {
        Asked::Input => Some(operation.input),
        Asked::Output => Some(operation.output),
        Asked::Error(name) => error_named(operation.errors.as_slice(), name),
    }
}
