// Values of texts: a scalar, and lists of them.
ghost use Rattle.std.specs.Prelude.{◌≡◌, Some};
ghost use Rattle.smithy_ids.specs.Kinds.{same_kind};
ghost use Rattle.smithy_ids.specs.declared.shape_type.ShapeType.TheVariants as kind;
ghost use Rattle.smithy_schema.specs.Nodes.{Table, at_place};
ghost use Rattle.smithy_schema.specs.References.{schema_of};
ghost use Rattle.smithy_serde.specs.StoredValues.{value_in, IsDefined};
ghost use Rattle.smithy_serde.specs.ValueRead.{IsPlaced};
ghost use Rattle.smithy_serde.specs.Values as value;
ghost use Rattle.smithy_recovery.specs.HeaderParts.{text_value, texts_value, times_value};
ghost use Rattle.smithy_recovery.specs.views.Keeping.{Keeps, KeepsOf, KeepsWritten};

use crate::error::RecoverError;
use smithy_ids::ShapeType;
use smithy_schema::{SchemaIndex, SchemaRef};
use smithy_serde::{ShapeValue, WriteList};
use smithy_strings::{Place, wire_value};
use smithy_types::{DateTime, Text};
use std::alloc::Global;

/// Whether this is the kind of a list.
pub fn is_list(shape_type: ShapeType) -> bool
    ensures { result ≡ same_kind shape_type kind.List }
{
    match shape_type {
        ShapeType::List => true,
        _ => false,
    }
}

/// The place of a node that stands in its table.
pub fn own_place(node: SchemaRef<'_>) -> SchemaIndex
    requires { IsPlaced (schema_of node).table (schema_of node) }
    ensures { at_place (schema_of node.entry).table result.0 ≡ Some (schema_of node.entry) }
{
    match node.index() {
        Some(place) => place,
        None => unreachable!(),
    }
}

/// The value as what stands there of a member.
pub fn written(value: Result<ShapeValue, RecoverError>) -> Result<Option<ShapeValue>, RecoverError>
    ensures { KeepsWritten value result }
{
    Ok(Some(value?))
}

/// The scalar whose text at a place this is. `NotPlaced` where it is none's.
pub fn scalar_value(
    alloc: Global,
    node: SchemaRef<'_>,
    place: Place,
    text: &str,
) -> Result<ShapeValue, RecoverError>
    ensures { (t : Table) → Keeps t (text_value (schema_of node.entry) place text.now) result }
{
    match wire_value(alloc, node, place, text)? {
        Some(value) => Ok(value),
        None => Err(RecoverError::NotPlaced),
    }
}

/// The list of the scalars of texts.
pub fn scalar_list(
    alloc: Global,
    element: SchemaRef<'_>,
    place: Place,
    texts: &[Text],
) -> Result<ShapeValue, RecoverError>
    requires { IsPlaced (schema_of element).table (schema_of element) }
    ensures { KeepsOf (schema_of element.entry) (λ e. texts_value e place texts.now) result }
{
    let index = own_place(element);
    let mut writes = WriteList::new(alloc);
    for text in texts {
        let value = scalar_value(alloc, element, place, text.as_str())?;
        writes.push(index, value)?;
    }
    Ok(ShapeValue::List(writes))
}

// A point in time.
#[tactic(auto, unfolding(smithy_serde::specs::StoredValues::value_in, smithy_serde::specs::StoredValues::IsDefined))]
fn time_value(seconds: i64) -> ShapeValue
    ensures value { (t : Table) → value_in t result ≡ value.scalar (value.timestamp seconds) }
    ensures defined { (t : Table) → IsDefined t result }
{
    ShapeValue::Timestamp(DateTime::from_secs(seconds))
}

/// The list of points in time.
pub fn time_list(
    alloc: Global,
    element: SchemaRef<'_>,
    seconds: &[i64],
) -> Result<ShapeValue, RecoverError>
    requires { IsPlaced (schema_of element).table (schema_of element) }
    ensures { KeepsOf (schema_of element.entry) (λ e. Some (times_value e seconds.now)) result }
{
    let index = own_place(element);
    let mut writes = WriteList::new(alloc);
    for seconds in seconds {
        writes.push(index, time_value(*seconds))?;
    }
    Ok(ShapeValue::List(writes))
}
