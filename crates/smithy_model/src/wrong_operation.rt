// The first wrong place of an operation.
ghost use Rattle.std.specs.Prelude.{map};
ghost use Rattle.smithy_json.specs.views.JsonView.{view};
ghost use Rattle.smithy_model.specs.Wrong.{first_item};
ghost use Rattle.smithy_model.specs.WrongModels.{wrong_http, wrong_operation_traits, wrong_target, wrong_target_at, wrong_citing, wrong_citing_at, wrong_targets, wrong_errors, wrong_citings, wrong_errors_at, wrong_http_of, wrong_traits_at, wrong_bare_operation, wrong_operation};
ghost use Rattle.smithy_model.specs.views.ModelView.{shapes_view};
ghost use Rattle.smithy_model.specs.views.WrongView.{Finds};

use crate::json_value::{items_of, text_of};
use crate::model_shapes::ModelShapes;
use crate::operation::is_operation;
use crate::traits::code_of;
use crate::wrong::{Wrong, asked_here, in_item, in_key, unless_at, unless_here};
use crate::wrong_shapes::{is_object, wrong_citing, wrong_mixins, wrong_target};
use crate::wrong_traits::wrong_traits;
use smithy_json::JsonValue;
use smithy_types::OutOfMemory;
use std::alloc::Global;

#[tactic(auto, unfolding(crate::specs::WrongModels::wrong_http))]
fn wrong_http(alloc: Global, http: &JsonValue<'_>) -> Result<Option<Wrong>, OutOfMemory>
    ensures { Finds (wrong_http (view http.now)) result }
{
    let words = "an object with `method` and `uri` is asked";
    if let Some(wrong) = unless_here(alloc, is_object(http), words)? {
        return Ok(Some(wrong));
    }
    let has_method = text_of(http, "method").is_some();
    if let Some(wrong) = unless_at(alloc, has_method, "method", "a text is asked")? {
        return Ok(Some(wrong));
    }
    let has_uri = text_of(http, "uri").is_some();
    if let Some(wrong) = unless_at(alloc, has_uri, "uri", "a text is asked")? {
        return Ok(Some(wrong));
    }
    unless_at(
        alloc,
        code_of(http).is_some(),
        "code",
        "a whole number from 0 to 65535 is asked",
    )
}

// `@http` among the traits, which may be absent.
fn wrong_http_of(alloc: Global, traits: &JsonValue<'_>) -> Result<Option<Wrong>, OutOfMemory>
    ensures { Finds (wrong_http_of (view traits.now)) result }
{
    match traits.get("smithy.api#http") {
        Some(http) => in_key(alloc, "smithy.api#http", wrong_http(alloc, http)?),
        None => Ok(None),
    }
}

#[tactic(auto, unfolding(crate::specs::WrongModels::wrong_operation_traits))]
fn wrong_operation_traits(
    alloc: Global,
    traits: &JsonValue<'_>,
) -> Result<Option<Wrong>, OutOfMemory>
    ensures { Finds (wrong_operation_traits (view traits.now)) result }
{
    if let Some(wrong) = wrong_traits(alloc, traits)? {
        return Ok(Some(wrong));
    }
    wrong_http_of(alloc, traits)
}

// The traits of an operation, which may be absent.
fn wrong_traits_at(alloc: Global, operation: &JsonValue<'_>) -> Result<Option<Wrong>, OutOfMemory>
    ensures { Finds (wrong_traits_at (view operation.now)) result }
{
    match operation.get("traits") {
        Some(traits) => in_key(alloc, "traits", wrong_operation_traits(alloc, traits)?),
        None => Ok(None),
    }
}

// The input or the output, which may be absent.
#[tactic(auto, unfolding(crate::specs::WrongModels::wrong_target_at))]
fn wrong_target_at(
    alloc: Global,
    key: &str,
    operation: &JsonValue<'_>,
) -> Result<Option<Wrong>, OutOfMemory>
    ensures { Finds (wrong_target_at key.now (view operation.now)) result }
{
    match operation.get(key) {
        Some(part) => in_key(alloc, key, wrong_target(alloc, part)?),
        None => Ok(None),
    }
}

/// The first wrong place of the input or the output of an operation, whose target has to be there. Takes memory.
#[tactic(auto, unfolding(crate::specs::WrongModels::wrong_citing_at))]
pub fn wrong_citing_at(
    alloc: Global,
    shapes: &ModelShapes<'_, '_>,
    key: &str,
    operation: &JsonValue<'_>,
) -> Result<Option<Wrong>, OutOfMemory>
    ensures { Finds (wrong_citing_at (shapes_view shapes.now) key.now (view operation.now)) result }
{
    match operation.get(key) {
        Some(part) => in_key(alloc, key, wrong_citing(alloc, shapes, part)?),
        None => Ok(None),
    }
}

fn wrong_target_in(alloc: Global, items: &[JsonValue<'_>]) -> Result<Option<Wrong>, OutOfMemory>
    ensures { Finds (first_item wrong_target 0 (map view items.now)) result }
{
    for (position, item) in items.iter().enumerate() {
        if let Some(wrong) = in_item(position, wrong_target(alloc, item)?)? {
            return Ok(Some(wrong));
        }
    }
    Ok(None)
}

#[tactic(auto, unfolding(crate::specs::WrongModels::wrong_targets))]
fn wrong_targets(alloc: Global, errors: &JsonValue<'_>) -> Result<Option<Wrong>, OutOfMemory>
    ensures { Finds (wrong_targets (view errors.now)) result }
{
    match items_of(errors) {
        Some(items) => wrong_target_in(alloc, items),
        None => Ok(Some(asked_here(alloc, "an array of objects with `target` is asked")?)),
    }
}

// The errors, which may be absent.
fn wrong_errors(alloc: Global, operation: &JsonValue<'_>) -> Result<Option<Wrong>, OutOfMemory>
    ensures { Finds (wrong_errors (view operation.now)) result }
{
    match operation.get("errors") {
        Some(errors) => in_key(alloc, "errors", wrong_targets(alloc, errors)?),
        None => Ok(None),
    }
}

fn wrong_citing_in(
    alloc: Global,
    shapes: &ModelShapes<'_, '_>,
    items: &[JsonValue<'_>],
) -> Result<Option<Wrong>, OutOfMemory>
    ensures { Finds (first_item (wrong_citing (shapes_view shapes.now)) 0 (map view items.now)) result }
{
    for (position, item) in items.iter().enumerate() {
        if let Some(wrong) = in_item(position, wrong_citing(alloc, shapes, item)?)? {
            return Ok(Some(wrong));
        }
    }
    Ok(None)
}

fn wrong_citings(
    alloc: Global,
    shapes: &ModelShapes<'_, '_>,
    errors: &JsonValue<'_>,
) -> Result<Option<Wrong>, OutOfMemory>
    ensures { Finds (wrong_citings (shapes_view shapes.now) (view errors.now)) result }
{
    match items_of(errors) {
        Some(items) => wrong_citing_in(alloc, shapes, items),
        None => Ok(None),
    }
}

/// The first wrong place of the errors of an operation, whose targets have to be there. Takes memory.
pub fn wrong_errors_at(
    alloc: Global,
    shapes: &ModelShapes<'_, '_>,
    operation: &JsonValue<'_>,
) -> Result<Option<Wrong>, OutOfMemory>
    ensures { Finds (wrong_errors_at (shapes_view shapes.now) (view operation.now)) result }
{
    match operation.get("errors") {
        Some(errors) => in_key(alloc, "errors", wrong_citings(alloc, shapes, errors)?),
        None => Ok(None),
    }
}

// An operation but for its traits.
#[tactic(auto, unfolding(crate::specs::WrongModels::wrong_bare_operation))]
fn wrong_bare_operation(
    alloc: Global,
    operation: &JsonValue<'_>,
) -> Result<Option<Wrong>, OutOfMemory>
    ensures { Finds (wrong_bare_operation (view operation.now)) result }
{
    if let Some(wrong) = wrong_mixins(alloc, operation)? {
        return Ok(Some(wrong));
    }
    let is_one = is_operation(operation);
    if let Some(wrong) = unless_at(alloc, is_one, "type", "`operation` is asked")? {
        return Ok(Some(wrong));
    }
    if let Some(wrong) = wrong_target_at(alloc, "input", operation)? {
        return Ok(Some(wrong));
    }
    if let Some(wrong) = wrong_target_at(alloc, "output", operation)? {
        return Ok(Some(wrong));
    }
    wrong_errors(alloc, operation)
}

/// The first wrong place of an operation, whose targets need not be there. Takes memory.
#[tactic(auto, unfolding(crate::specs::WrongModels::wrong_operation))]
pub fn wrong_operation(
    alloc: Global,
    operation: &JsonValue<'_>,
) -> Result<Option<Wrong>, OutOfMemory>
    ensures { Finds (wrong_operation (view operation.now)) result }
{
    if let Some(wrong) = wrong_bare_operation(alloc, operation)? {
        return Ok(Some(wrong));
    }
    wrong_traits_at(alloc, operation)
}
