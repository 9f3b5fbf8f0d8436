// The first wrong place of a shape.
ghost use Rattle.std.specs.Prelude.{◌≡◌, option_map};
ghost use Rattle.smithy_json.specs.views.JsonView.{view, entries, entry_of};
ghost use Rattle.smithy_model.specs.Wrong.{first_in};
ghost use Rattle.smithy_model.specs.WrongModels.{is_object, is_there, wrong_name, wrong_target, wrong_citing, wrong_member, member_entries, wrong_named, wrong_members, wrong_part, wrong_by_kind, wrong_parts, wrong_mixins, wrong_type, wrong_shape};
ghost use Rattle.smithy_model.specs.views.ModelView.{shapes_view};
ghost use Rattle.smithy_model.specs.views.WrongView.{Finds};

use crate::json_value::{members_of, text_of};
use crate::model_shapes::ModelShapes;
use crate::name::is_full_name;
use crate::prelude::prelude_kind;
use crate::shapes::{found_at, has_no_mixins, kind_named, kind_of};
use crate::wrong::{Wrong, asked_at, asked_here, in_key, unless_at, unless_here, unless_named};
use crate::wrong_traits::wrong_traits_of;
use smithy_ids::ShapeType;
use smithy_json::JsonValue;
use smithy_types::OutOfMemory;
use std::alloc::Global;

/// Whether a value is an object.
pub fn is_object(value: &JsonValue<'_>) -> bool
    ensures { result ≡ is_object (view value.now) }
{
    value.as_object().is_some()
}

/// Whether the prelude or the model has a shape of this name. Takes no memory.
pub fn is_there(shapes: &ModelShapes<'_, '_>, name: &str) -> bool
    ensures { result ≡ is_there (shapes_view shapes.now) name.now }
{
    prelude_kind(name).is_some() || found_at(shapes, name).is_some()
}

/// The name of a shape that has to be there. Takes memory.
#[tactic(auto, unfolding(crate::specs::WrongModels::wrong_name))]
pub fn wrong_name(
    alloc: Global,
    shapes: &ModelShapes<'_, '_>,
    name: &str,
) -> Result<Option<Wrong>, OutOfMemory>
    ensures { Finds (wrong_name (shapes_view shapes.now) name.now) result }
{
    let words = "the full name of a shape is asked, as smithy.api#String";
    if let Some(wrong) = unless_here(alloc, is_full_name(name), words)? {
        return Ok(Some(wrong));
    }
    unless_named(alloc, is_there(shapes, name), name, " is not in the model")
}

/// The first wrong place of what has a target. Takes memory.
#[tactic(auto, unfolding(crate::specs::WrongModels::wrong_target))]
pub fn wrong_target(alloc: Global, value: &JsonValue<'_>) -> Result<Option<Wrong>, OutOfMemory>
    ensures { Finds (wrong_target (view value.now)) result }
{
    let words = "an object with `target` is asked";
    if let Some(wrong) = unless_here(alloc, is_object(value), words)? {
        return Ok(Some(wrong));
    }
    let has_target = text_of(value, "target").is_some();
    let words = "the full name of a shape is asked, as smithy.api#String";
    unless_at(alloc, has_target, "target", words)
}

/// The same where the target has to be there. Takes memory.
#[tactic(auto, unfolding(crate::specs::WrongModels::wrong_citing))]
pub fn wrong_citing(
    alloc: Global,
    shapes: &ModelShapes<'_, '_>,
    value: &JsonValue<'_>,
) -> Result<Option<Wrong>, OutOfMemory>
    ensures { Finds (wrong_citing (shapes_view shapes.now) (view value.now)) result }
{
    if let Some(wrong) = wrong_target(alloc, value)? {
        return Ok(Some(wrong));
    }
    match text_of(value, "target") {
        Some(name) => in_key(alloc, "target", wrong_name(alloc, shapes, name)?),
        None => Ok(None),
    }
}

#[tactic(auto, unfolding(crate::specs::WrongModels::wrong_member))]
fn wrong_member(
    alloc: Global,
    shapes: &ModelShapes<'_, '_>,
    member: &JsonValue<'_>,
) -> Result<Option<Wrong>, OutOfMemory>
    ensures { Finds (wrong_member (shapes_view shapes.now) (view member.now)) result }
{
    if let Some(wrong) = wrong_citing(alloc, shapes, member)? {
        return Ok(Some(wrong));
    }
    wrong_traits_of(alloc, member)
}

fn wrong_named(
    alloc: Global,
    shapes: &ModelShapes<'_, '_>,
    entry: &(&str, JsonValue<'_>),
) -> Result<Option<Wrong>, OutOfMemory>
    ensures { Finds (wrong_named (shapes_view shapes.now) (entry_of entry.now)) result }
{
    in_key(alloc, entry.0, wrong_member(alloc, shapes, &entry.1)?)
}

fn wrong_among(
    alloc: Global,
    shapes: &ModelShapes<'_, '_>,
    members: &[(&str, JsonValue<'_>)],
) -> Result<Option<Wrong>, OutOfMemory>
    ensures { Finds (first_in (wrong_named (shapes_view shapes.now)) (entries members.now)) result }
{
    for member in members {
        if let Some(wrong) = wrong_named(alloc, shapes, member)? {
            return Ok(Some(wrong));
        }
    }
    Ok(None)
}

// The members of a structure or a union.
fn member_entries<'v, 't>(shape: &'v JsonValue<'t>) -> Option<&'v [(&'t str, JsonValue<'t>)]>
    ensures { option_map (λ members. entries members.now) result
        ≡ member_entries (view shape.now) }
{
    members_of(shape.get("members")?)
}

#[tactic(auto, unfolding(crate::specs::WrongModels::wrong_members))]
fn wrong_members(
    alloc: Global,
    shapes: &ModelShapes<'_, '_>,
    shape: &JsonValue<'_>,
) -> Result<Option<Wrong>, OutOfMemory>
    ensures { Finds (wrong_members (shapes_view shapes.now) (view shape.now)) result }
{
    match member_entries(shape) {
        Some(members) => in_key(alloc, "members", wrong_among(alloc, shapes, members)?),
        None => Ok(Some(asked_at(alloc, "members", "an object from names to members is asked")?)),
    }
}

// The member under a key of the shape's own.
#[tactic(auto, unfolding(crate::specs::WrongModels::wrong_part))]
fn wrong_part(
    alloc: Global,
    shapes: &ModelShapes<'_, '_>,
    key: &str,
    shape: &JsonValue<'_>,
) -> Result<Option<Wrong>, OutOfMemory>
    ensures { Finds (wrong_part (shapes_view shapes.now) key.now (view shape.now)) result }
{
    match shape.get(key) {
        Some(member) => in_key(alloc, key, wrong_member(alloc, shapes, member)?),
        None => Ok(Some(asked_at(alloc, key, "an object with `target` is asked")?)),
    }
}

// The key and the value of a map.
#[tactic(auto, unfolding(crate::specs::WrongModels::wrong_by_kind))]
fn wrong_key_or_value(
    alloc: Global,
    shapes: &ModelShapes<'_, '_>,
    shape: &JsonValue<'_>,
) -> Result<Option<Wrong>, OutOfMemory>
    ensures { Finds (wrong_by_kind (shapes_view shapes.now) (view shape.now) ShapeType.Map) result }
{
    if let Some(wrong) = wrong_part(alloc, shapes, "key", shape)? {
        return Ok(Some(wrong));
    }
    wrong_part(alloc, shapes, "value", shape)
}

#[tactic(auto, unfolding(crate::specs::WrongModels::wrong_by_kind))]
fn wrong_by_kind(
    alloc: Global,
    shapes: &ModelShapes<'_, '_>,
    shape: &JsonValue<'_>,
    kind: ShapeType,
) -> Result<Option<Wrong>, OutOfMemory>
    ensures { Finds (wrong_by_kind (shapes_view shapes.now) (view shape.now) kind) result }
{
    match kind {
        ShapeType::Structure => wrong_members(alloc, shapes, shape),
        ShapeType::Union => wrong_members(alloc, shapes, shape),
        ShapeType::List => wrong_part(alloc, shapes, "member", shape),
        ShapeType::Map => wrong_key_or_value(alloc, shapes, shape),
        _ => Ok(None),
    }
}

// The members of a shape of a known type.
fn wrong_parts(
    alloc: Global,
    shapes: &ModelShapes<'_, '_>,
    shape: &JsonValue<'_>,
) -> Result<Option<Wrong>, OutOfMemory>
    ensures { Finds (wrong_parts (shapes_view shapes.now) (view shape.now)) result }
{
    match kind_of(shape) {
        Some(kind) => wrong_by_kind(alloc, shapes, shape, kind),
        None => Ok(None),
    }
}

/// A shape or an operation that is no object, or has mixins. Takes memory.
#[tactic(auto, unfolding(crate::specs::WrongModels::wrong_mixins))]
pub fn wrong_mixins(alloc: Global, shape: &JsonValue<'_>) -> Result<Option<Wrong>, OutOfMemory>
    ensures { Finds (wrong_mixins (view shape.now)) result }
{
    let words = "an object with `type` is asked";
    if let Some(wrong) = unless_here(alloc, is_object(shape), words)? {
        return Ok(Some(wrong));
    }
    unless_at(
        alloc,
        has_no_mixins(shape),
        "mixins",
        "an empty array is asked: mixins are not read",
    )
}

// The type of a shape that has a schema.
#[tactic(auto, unfolding(crate::specs::WrongModels::wrong_type))]
fn wrong_type(alloc: Global, shape: &JsonValue<'_>) -> Result<Option<Wrong>, OutOfMemory>
    ensures { Finds (wrong_type (view shape.now)) result }
{
    match text_of(shape, "type") {
        Some(name) => {
            let is_known = kind_named(name).is_some();
            let found = unless_named(alloc, is_known, name, " is no type of values")?;
            in_key(alloc, "type", found)
        }
        None => Ok(Some(asked_at(alloc, "type", "the name of a type is asked, as structure")?)),
    }
}

/// The first wrong place of a shape; the targets of its members have to be there. Takes memory.
#[tactic(auto, unfolding(crate::specs::WrongModels::wrong_shape))]
pub fn wrong_shape(
    alloc: Global,
    shapes: &ModelShapes<'_, '_>,
    shape: &JsonValue<'_>,
) -> Result<Option<Wrong>, OutOfMemory>
    ensures { Finds (wrong_shape (shapes_view shapes.now) (view shape.now)) result }
{
    if let Some(wrong) = wrong_mixins(alloc, shape)? {
        return Ok(Some(wrong));
    }
    if let Some(wrong) = wrong_type(alloc, shape)? {
        return Ok(Some(wrong));
    }
    if let Some(wrong) = wrong_parts(alloc, shapes, shape)? {
        return Ok(Some(wrong));
    }
    wrong_traits_of(alloc, shape)
}
