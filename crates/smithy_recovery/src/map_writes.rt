// A map as writes of its keys and values in turn.
ghost use Rattle.std.specs.Prelude.{◌≡◌, IsTrue, OnOk};
ghost use Rattle.smithy_schema.specs.References.{schema_of};
ghost use Rattle.smithy_recovery.specs.views.KeptEntries.{ArePlaces, AddsEntry, StaysDefinedAt, has_entry_nodes};

use crate::values::own_place;
use smithy_schema::{SchemaIndex, SchemaRef};
use smithy_serde::{ShapeValue, WriteList};
use smithy_types::OutOfMemory;
use std::alloc::Global;

/// The places of the nodes of a map's keys and of its values. Condition: the member is a map whose keys and values have nodes.
pub fn entry_places(member: SchemaRef<'_>) -> (SchemaIndex, SchemaIndex)
    requires { IsTrue (has_entry_nodes (schema_of member)) }
    ensures { ArePlaces (schema_of member.entry) result.0.0 result.1.0 }
{
    let Some(key) = member.key() else {
        unreachable!()
    };
    let Some(value) = member.value() else {
        unreachable!()
    };
    (own_place(key), own_place(value))
}

/// Adds an entry, with the nodes at these places. Takes memory.
#[tactic(auto, unfolding(smithy_serde::specs::StoredValues::value_in, smithy_serde::specs::StoredValues::IsDefined))]
pub fn push_entry(
    alloc: Global,
    writes: &mut WriteList,
    places: (SchemaIndex, SchemaIndex),
    key: &str,
    value: ShapeValue,
) -> Result<(), OutOfMemory>
    ensures writes { OnOk result (AddsEntry places.0.0 places.1.0 key.now value writes.old writes.new) }
    ensures defined { OnOk result (StaysDefinedAt places.0.0 places.1.0 value writes.old writes.new) }
{
    let (key_place, value_place) = places;
    writes.push(key_place, ShapeValue::text(alloc, key)?)?;
    writes.push(value_place, value)?;
    Ok(())
}
