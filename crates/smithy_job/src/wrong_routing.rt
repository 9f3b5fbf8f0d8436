// The first wrong place of the operations of a request.
ghost use Rattle.std.specs.Prelude.{◌≡◌, map, option_map};
ghost use Rattle.smithy_json.specs.views.JsonView.{view};
ghost use Rattle.smithy_model.specs.views.ModelView.{shapes_view};
ghost use Rattle.smithy_model.specs.views.WrongView.{Finds, wrong_view};
ghost use Rattle.smithy_job.specs.WrongJobs.{at_operation, wrong_routed_name, wrong_routed, first_routed, wrong_listed, operations_given, wrong_operations};

use crate::wrong_reach::in_model_shapes;
use smithy_json::JsonValue;
use smithy_model::{
    Asked, ModelShapes, Wrong, asked_at, asked_here, found_at, in_item, in_key, items_of,
    may_have_http, shapes_of, unless_named, wrong_in_shapes, wrong_model,
};
use smithy_types::OutOfMemory;
use std::alloc::Global;

// What was found of the operation at a position.
fn at_operation(
    alloc: Global,
    position: usize,
    found: Option<Wrong>,
) -> Result<Option<Wrong>, OutOfMemory>
    ensures { Finds (at_operation position (option_map wrong_view found)) result }
{
    in_key(alloc, "operations", in_item(position, found)?)
}

// An operation by its name: it is there, its shapes have their form, and it has `@http`.
#[tactic(auto, unfolding(crate::specs::WrongJobs::wrong_routed_name))]
fn wrong_routed_name(
    alloc: Global,
    shapes: &ModelShapes<'_, '_>,
    position: usize,
    name: &str,
) -> Result<Option<Wrong>, OutOfMemory>
    ensures { Finds (wrong_routed_name (shapes_view shapes.now) position name.now) result }
{
    let is_there = found_at(shapes, name).is_some();
    let found = unless_named(alloc, is_there, name, " is no operation of the model")?;
    if let Some(wrong) = at_operation(alloc, position, found)? {
        return Ok(Some(wrong));
    }
    let found = wrong_in_shapes(alloc, shapes, name, Asked::Input)?;
    if let Some(wrong) = in_model_shapes(alloc, found)? {
        return Ok(Some(wrong));
    }
    let has_http = may_have_http(alloc, shapes, name)?;
    let found = unless_named(alloc, has_http, name, " has no smithy.api#http")?;
    at_operation(alloc, position, found)
}

fn wrong_routed(
    alloc: Global,
    shapes: &ModelShapes<'_, '_>,
    position: usize,
    name: &JsonValue<'_>,
) -> Result<Option<Wrong>, OutOfMemory>
    ensures { Finds (wrong_routed (shapes_view shapes.now) position (view name.now)) result }
{
    match name.as_str() {
        Some(name) => wrong_routed_name(alloc, shapes, position, name),
        None => {
            let wrong = asked_here(alloc, "the full name of an operation is asked")?;
            at_operation(alloc, position, Some(wrong))
        }
    }
}

fn first_routed(
    alloc: Global,
    shapes: &ModelShapes<'_, '_>,
    names: &[JsonValue<'_>],
) -> Result<Option<Wrong>, OutOfMemory>
    ensures { Finds (first_routed (shapes_view shapes.now) 0 (map view names.now)) result }
{
    for (position, name) in names.iter().enumerate() {
        if let Some(wrong) = wrong_routed(alloc, shapes, position, name)? {
            return Ok(Some(wrong));
        }
    }
    Ok(None)
}

fn wrong_listed(
    alloc: Global,
    names: &[JsonValue<'_>],
    model: &JsonValue<'_>,
) -> Result<Option<Wrong>, OutOfMemory>
    ensures { Finds (wrong_listed (map view names.now) (view model.now)) result }
{
    match shapes_of(model) {
        Some(shapes) => first_routed(alloc, &shapes, names),
        None => in_key(alloc, "model", wrong_model(alloc, model)?),
    }
}

fn operations_given<'v, 't>(job: &'v JsonValue<'t>) -> Option<&'v [JsonValue<'t>]>
    ensures { option_map (λ ds. map view ds.now) result ≡ operations_given (view job.now) }
{
    items_of(job.get("operations")?)
}

/// The first wrong place of the operations of which a request may be one's. Takes memory.
#[tactic(auto, unfolding(crate::specs::WrongJobs::wrong_operations))]
pub fn wrong_operations(alloc: Global, job: &JsonValue<'_>) -> Result<Option<Wrong>, OutOfMemory>
    ensures { Finds (wrong_operations (view job.now)) result }
{
    let Some(names) = operations_given(job) else {
        let words = "an array of full names is asked";
        return Ok(Some(asked_at(alloc, "operations", words)?));
    };
    match job.get("model") {
        Some(model) => wrong_listed(alloc, names, model),
        None => Ok(None),
    }
}
