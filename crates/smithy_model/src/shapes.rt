// The shapes of a model.
ghost use Rattle.std.specs.Prelude.{◌≡◌, true, map, option_map, OnSome};
ghost use Rattle.smithy_ids.specs.ShapeIds.{has_hash};
ghost use Rattle.smithy_json.specs.views.JsonView.{view, entries};
ghost use Rattle.smithy_types.specs.Results.{each};
ghost use Rattle.smithy_model.specs.Reads.{Reads};
ghost use Rattle.smithy_model.specs.Shapes.{member_at, member_in, part_at, members_at, element_in, key_and_value_in, members_by, kind_named, kind_in, has_no_mixins, shape_with, shape_in, is_of_prelude, found_at, own_shape_at, shape_at};
ghost use Rattle.smithy_model.specs.views.ModelView.{member_view, shape_view, shapes_view};

use crate::error::JobError;
use crate::json_value::{items_of, members_of, text_of};
use crate::model_shapes::ModelShapes;
use crate::name::is_full_name;
use crate::prelude::{prelude_kind, prelude_shape};
use crate::shape::{Member, Shape};
use crate::traits::traits_of;
use smithy_ids::ShapeType;
use smithy_json::JsonValue;
use std::alloc::Global;

fn read_member<'v, 't>(name: &'t str, value: &'v JsonValue<'t>) -> Option<Member<'v, 't>>
    ensures { option_map member_view result ≡ member_at name.now (view value.now) }
{
    let target = text_of(value, "target")?;
    let traits = traits_of(value)?;
    Some(Member {
        name,
        target,
        traits,
    })
}

// The member under a key of the shape's own.
fn part_at<'v, 't>(key: &'static str, shape: &'v JsonValue<'t>) -> Option<Member<'v, 't>>
    ensures { option_map member_view result ≡ part_at key.now (view shape.now) }
{
    read_member(key, shape.get(key)?)
}

fn members_in<'v, 't>(
    alloc: Global,
    members: &'v [(&'t str, JsonValue<'t>)],
) -> Result<Vec<Member<'v, 't>>, JobError>
    ensures { Reads (λ v. map member_view v.items) (each member_in (entries members.now)) result }
{
    let mut found = Vec::with_capacity(alloc, members.len())?;
    for member in members {
        let Some(member) = read_member(member.0, &member.1) else {
            return Err(JobError::NoJob);
        };
        found.push(member)?;
    }
    Ok(found)
}

// The members of a structure or a union, in byte order of their names.
fn members_at<'v, 't>(
    alloc: Global,
    shape: &'v JsonValue<'t>,
) -> Result<Vec<Member<'v, 't>>, JobError>
    ensures { Reads (λ v. map member_view v.items) (members_at (view shape.now)) result }
{
    let Some(value) = shape.get("members") else {
        return Err(JobError::NoJob);
    };
    match members_of(value) {
        Some(members) => members_in(alloc, members),
        None => Err(JobError::NoJob),
    }
}

// The element of a list.
fn element_of<'v, 't>(
    alloc: Global,
    shape: &'v JsonValue<'t>,
) -> Result<Vec<Member<'v, 't>>, JobError>
    ensures { Reads (λ v. map member_view v.items) (element_in (view shape.now)) result }
{
    let Some(element) = part_at("member", shape) else {
        return Err(JobError::NoJob);
    };
    Ok(vec![in alloc; element]?)
}

// The key and the value of a map.
fn key_and_value_of<'v, 't>(
    alloc: Global,
    shape: &'v JsonValue<'t>,
) -> Result<Vec<Member<'v, 't>>, JobError>
    ensures { Reads (λ v. map member_view v.items) (key_and_value_in (view shape.now)) result }
{
    let Some(key) = part_at("key", shape) else {
        return Err(JobError::NoJob);
    };
    let Some(value) = part_at("value", shape) else {
        return Err(JobError::NoJob);
    };
    Ok(vec![in alloc; key, value]?)
}

fn members_by<'v, 't>(
    alloc: Global,
    kind: ShapeType,
    shape: &'v JsonValue<'t>,
) -> Result<Vec<Member<'v, 't>>, JobError>
    ensures { Reads (λ v. map member_view v.items) (members_by kind (view shape.now)) result }
{
    match kind {
        ShapeType::Structure => members_at(alloc, shape),
        ShapeType::Union => members_at(alloc, shape),
        ShapeType::List => element_of(alloc, shape),
        ShapeType::Map => key_and_value_of(alloc, shape),
        _ => Ok(Vec::new(alloc)),
    }
}

/// The kind of shapes of this type, which have a schema. Takes no memory.
#[tactic(auto, unfolding(crate::specs::Shapes::kind_named))]
pub fn kind_named(name: &str) -> Option<ShapeType>
    ensures { result ≡ kind_named name.now }
{
    match name {
        "byte" => Some(ShapeType::Byte),
        "short" => Some(ShapeType::Short),
        "integer" => Some(ShapeType::Integer),
        "long" => Some(ShapeType::Long),
        "float" => Some(ShapeType::Float),
        "double" => Some(ShapeType::Double),
        "bigInteger" => Some(ShapeType::BigInteger),
        "bigDecimal" => Some(ShapeType::BigDecimal),
        "boolean" => Some(ShapeType::Boolean),
        "string" => Some(ShapeType::String),
        "blob" => Some(ShapeType::Blob),
        "timestamp" => Some(ShapeType::Timestamp),
        "document" => Some(ShapeType::Document),
        "enum" => Some(ShapeType::String),
        "intEnum" => Some(ShapeType::Integer),
        "list" => Some(ShapeType::List),
        "set" => Some(ShapeType::List),
        "map" => Some(ShapeType::Map),
        "structure" => Some(ShapeType::Structure),
        "union" => Some(ShapeType::Union),
        _ => None,
    }
}

/// The kind of a shape that has a schema. Takes no memory.
pub fn kind_of(shape: &JsonValue<'_>) -> Option<ShapeType>
    ensures { result ≡ kind_in (view shape.now) }
{
    kind_named(text_of(shape, "type")?)
}

/// Whether a shape has no mixins (Smithy, JSON AST). Takes no memory.
pub fn has_no_mixins(shape: &JsonValue<'_>) -> bool
    ensures { result ≡ has_no_mixins (view shape.now) }
{
    match shape.get("mixins") {
        None => true,
        Some(mixins) => match items_of(mixins) {
            Some(items) => items.is_empty(),
            None => false,
        },
    }
}

fn shape_with<'v, 't>(
    alloc: Global,
    name: &'t str,
    shape: &'v JsonValue<'t>,
    kind: ShapeType,
) -> Result<Shape<'v, 't>, JobError>
    ensures { Reads shape_view (shape_with name.now (view shape.now) kind) result }
{
    let Some(traits) = traits_of(shape) else {
        return Err(JobError::NoJob);
    };
    let members = members_by(alloc, kind, shape)?;
    Ok(Shape {
        name,
        kind,
        traits,
        members,
    })
}

fn shape_in<'v, 't>(
    alloc: Global,
    name: &'t str,
    shape: &'v JsonValue<'t>,
) -> Result<Shape<'v, 't>, JobError>
    ensures { Reads shape_view (shape_in name.now (view shape.now)) result }
{
    if !has_no_mixins(shape) {
        return Err(JobError::NoJob);
    }
    match kind_of(shape) {
        Some(kind) => shape_with(alloc, name, shape, kind),
        None => Err(JobError::NoJob),
    }
}

#[inline(always)]
fn is_of_prelude(name: &str) -> bool
    ensures { result ≡ is_of_prelude name.now }
{
    name.as_bytes().starts_with(b"smithy.api#")
}

/// What the shapes of a model have at a full name that isn't the prelude's. Takes no memory.
pub fn found_at<'v, 't>(shapes: &ModelShapes<'v, 't>, name: &str) -> Option<&'v JsonValue<'t>>
    ensures found { option_map (λ v. view v.now) result ≡ found_at (shapes_view shapes.now) name.now }
    ensures named { OnSome result (has_hash name.now ≡ true) }
{
    if !is_full_name(name) || is_of_prelude(name) {
        return None;
    }
    shapes.get(name)
}

// The shape that a model itself has at this name.
fn own_shape_at<'v, 't>(
    alloc: Global,
    shapes: &ModelShapes<'v, 't>,
    name: &'t str,
) -> Result<Shape<'v, 't>, JobError>
    ensures { Reads shape_view (own_shape_at (shapes_view shapes.now) name.now) result }
{
    match found_at(shapes, name) {
        Some(shape) => shape_in(alloc, name, shape),
        None => Err(JobError::NoJob),
    }
}

/// The shape of this name, the prelude's or a model's own. Takes memory for the list of its members.
///
/// No job where there is none, or one that hasn't its form.
#[tactic(auto, unfolding(crate::specs::Shapes::shape_at))]
pub fn shape_at<'v, 't>(
    alloc: Global,
    shapes: &ModelShapes<'v, 't>,
    name: &'t str,
) -> Result<Shape<'v, 't>, JobError>
    ensures { Reads shape_view (shape_at (shapes_view shapes.now) name.now) result }
{
    match prelude_kind(name) {
        Some(kind) => Ok(prelude_shape(alloc, name, kind)),
        None => own_shape_at(alloc, shapes, name),
    }
}
