// How the fields of a node are found by their names in JSON.
ghost use Rattle.std.specs.Prelude.{◌≡◌, IfOk, OnOk};
ghost use Rattle.smithy_wire.specs.Words.{member_at, schema_of};
ghost use Rattle.smithy_wire.specs.views.FieldNames.{are_own, is_own_at, HasJsonNames, HasName, HasNameOf, Tells};

use crate::names::{json_name, name_of};
use smithy_schema::SchemaRef;
use smithy_types::OutOfMemory;
use std::alloc::Global;
use std::collections::BTreeMap;

// So many members are looked at one after another: that costs less than a map.
const FEW_MEMBERS: usize = 8;

// A position for each name in JSON.
type Positions = BTreeMap<String, usize>;

/// How they are found.
#[derive(Drop)]
pub(crate) enum NodeNames {
    // Each member is named in JSON as it is.
    Own,
    // One member after another is looked at.
    Few,
    // Each name in JSON has the position of its member.
    Mapped(Positions),
}

// Whether the member at a position, where there is one, is named in JSON as it is.
fn is_own_at(schema: SchemaRef<'_>, position: usize) -> bool
    ensures { result ≡ is_own_at (schema_of schema.entry) position }
{
    match schema.member_schema_by_index(position) {
        Some(member) => json_name(member) == name_of(member),
        None => true,
    }
}

// Whether each member is.
fn are_own(schema: SchemaRef<'_>) -> bool
    ensures { result ≡ are_own (schema_of schema.entry) }
{
    for position in 0..schema.members().len() {
        if !is_own_at(schema, position) {
            return false;
        }
    }
    true
}

fn add_name(
    alloc: Global,
    positions: &mut Positions,
    name: &str,
    position: usize,
) -> Result<(), OutOfMemory>
    ensures { OnOk result (HasName name.now positions.old positions.new) }
{
    let name = String::from_str(alloc, name)?;
    positions.insert(name, position)?;
    Ok(())
}

// Adds the name of the member at a position, where there is one.
fn add_member(
    alloc: Global,
    positions: &mut Positions,
    schema: SchemaRef<'_>,
    position: usize,
) -> Result<(), OutOfMemory>
    ensures { OnOk result (HasNameOf
        (member_at (schema_of schema.entry) position) positions.old positions.new) }
{
    match schema.member_schema_by_index(position) {
        Some(member) => add_name(alloc, positions, json_name(member), position),
        None => Ok(()),
    }
}

// A position for the name in JSON of each member, and for no other name.
fn positions_of(alloc: Global, schema: SchemaRef<'_>) -> Result<Positions, OutOfMemory>
    ensures { IfOk result (HasJsonNames (schema_of schema.entry)) }
{
    let mut positions = BTreeMap::new(alloc);
    for position in 0..schema.members().len() {
        add_member(alloc, &mut positions, schema, position)?;
    }
    Ok(positions)
}

/// How the fields of the node are found. Takes memory for copies of the names in JSON, where some differ from those of their
/// members and there are more than eight.
pub(crate) fn node_names(alloc: Global, schema: SchemaRef<'_>) -> Result<NodeNames, OutOfMemory>
    ensures { IfOk result (Tells (schema_of schema.entry)) }
{
    if are_own(schema) {
        return Ok(NodeNames::Own);
    }
    if schema.members().len() <= FEW_MEMBERS {
        return Ok(NodeNames::Few);
    }
    Ok(NodeNames::Mapped(positions_of(alloc, schema)?))
}
