// The nodes of members and shapes.
ghost use Rattle.std.specs.Prelude.{◌≡◌, [], true, false, None, Some, string_bytes, IfOk, OnOk};
ghost use Rattle.std.specs.List.{range_with_len};
ghost use Rattle.smithy_ids.specs.ShapeIds.{has_hash};
ghost use Rattle.smithy_ids.specs.ShapeIdParts.{parts_of};
ghost use Rattle.smithy_schema.specs.Places.{places_of};
ghost use Rattle.smithy_model.specs.Nodes as defined;
ghost use Rattle.smithy_model.specs.views.NodeView.{node_of, bare_member_at, shape_at, Sets};

use crate::further::with_traits;
use crate::passed::{copied, passed_traits};
use crate::shape::Member;
use crate::spots::{Spot, SpotMap, index_behind};
use crate::structure::{are_outside, hint_of, is_structure};
use smithy_ids::{ShapeId, ShapeType};
use smithy_schema::{Schema, SchemaIndex, Schemas};
use smithy_types::OutOfMemory;
use std::alloc::Global;

// The identifier with this full name.
fn shape_id(name: &str) -> ShapeId<'_>
    requires { has_hash name.now ≡ true }
    ensures { (parts_of result).full_name ≡ name.now }
{
    match ShapeId::parse(name) {
        Some(id) => id,
        None => unreachable!(),
    }
}

// Gives a declared index its node. The nodes come in the table's order, with indexes below its length, so that a table
// refuses them for want of memory alone.
fn define(table: &mut Schemas, index: usize, schema: Schema<'_>) -> Result<(), OutOfMemory>
    ensures { Sets index schema.entry table.old table.new result }
{
    match table.define(SchemaIndex(index), schema) {
        Ok(()) => Ok(()),
        Err(_) => Err(OutOfMemory),
    }
}

// The same, citing what a shape of this kind holds, whose first member has this index. Condition: it cites nothing of that.
#[inline(always)]
fn holding<'a>(schema: Schema<'a>, kind: ShapeType, first: usize) -> Result<Schema<'a>, OutOfMemory>
    requires { schema ≡ record schema { members = []; element = None; key = None; value = None } }
    ensures { IfOk result (λ s. s ≡ defined.holding kind first schema.entry) }
{
    match kind {
        ShapeType::List => Ok(schema.with_list_member(SchemaIndex(first))),
        ShapeType::Map => {
            let second = index_behind(first, 1)?;
            Ok(schema.with_map_members(SchemaIndex(first), SchemaIndex(second)))
        }
        _ => Ok(schema),
    }
}

// A member's node without its traits, of the shape at a spot.
#[inline(always)]
fn member_schema<'a>(
    id: ShapeId<'a>,
    spot: Spot<'_, '_, '_>,
    name: &'a str,
    position: usize,
) -> Result<Schema<'a>, OutOfMemory>
    ensures { IfOk result (λ s. s ≡ bare_member_at id.entry position name.now spot.entry) }
{
    let schema = Schema::new_member(id, spot.shape.kind, name, position).with_target(SchemaIndex(
        spot.index,
    ));
    holding(schema, spot.shape.kind, spot.first)
}

// Puts the full name of a member of the shape of this name in the place of a text (Smithy, shape identifiers).
fn put_member_id(id: &mut String, shape: &str, name: &str) -> Result<(), OutOfMemory>
    ensures { OnOk result (string_bytes id.new ≡ defined.member_id shape.now name.now) }
{
    id.clear();
    id.push_str(shape)?;
    id.push_str("$")?;
    id.push_str(name)?;
    Ok(())
}

/// Gives a index the node of a member of the shape of this name, of the shape at a spot. Takes memory. The full name stands in
/// a text that other members can have after it.
pub fn define_member<'v, 't, 's>(
    alloc: Global,
    table: &mut Schemas,
    full_name: &mut String,
    spots: &SpotMap<'v, 't, 's>,
    index: usize,
    shape: &str,
    position: usize,
    member: &Member<'v, 't>,
    spot: Spot<'v, 't, 's>,
) -> Result<(), OutOfMemory>
    requires { has_hash shape.now ≡ true }
    ensures { Sets index (node_of spots.now shape.now position member.now spot.entry) table.old table.new result }
{
    let traits = passed_traits(spots, &member.traits, spot.shape);
    let name = member.name;
    put_member_id(full_name, shape, name)?;
    let schema = member_schema(shape_id(full_name.as_str()), spot, name, position)?;
    define(table, index, with_traits(alloc, schema, traits)?)
}

// The indexes from this one, as many as there are members.
fn indexes_from(alloc: Global, first: usize, count: usize) -> Result<Vec<SchemaIndex>, OutOfMemory>
    ensures { IfOk result (λ indexes. places_of indexes.items ≡ range_with_len first count) }
{
    let mut indexes = Vec::with_capacity(alloc, count)?;
    for position in 0..count {
        indexes.push(SchemaIndex(index_behind(first, position)?))?;
    }
    Ok(indexes)
}

fn with_flag<'a>(schema: Schema<'a>, are_outside: bool) -> Schema<'a>
    requires { schema.has_no_body_members ≡ false }
    ensures { result ≡ record schema.entry { has_no_body_members = are_outside } }
{
    if are_outside {
        schema.with_no_body_members()
    } else {
        schema
    }
}

// Gives a index the node of a structure or a union.
fn define_structure<'v, 't, 's>(
    alloc: Global,
    table: &mut Schemas,
    spots: &SpotMap<'v, 't, 's>,
    index: usize,
    spot: Spot<'v, 't, 's>,
) -> Result<(), OutOfMemory>
    requires structure { defined.is_structure spot.shape.now.kind ≡ true }
    requires name { has_hash spot.shape.now.name.now ≡ true }
    ensures { Sets index (shape_at spots.now spot.entry) table.old table.new result }
{
    let shape = spot.shape;
    let members = shape.members.as_slice();
    let indexes = indexes_from(alloc, spot.first, members.len())?;
    let schema = Schema::new_struct(
        shape_id(shape.name),
        shape.kind,
        indexes.as_slice(),
    ).with_payload_hint(hint_of(spots, members));
    let schema = with_flag(schema, are_outside(members));
    let schema = with_traits(alloc, schema, copied(&shape.traits))?;
    define(table, index, schema)
}

/// Gives a index the node of a shape. Takes memory.
pub fn define_shape<'v, 't, 's>(
    alloc: Global,
    table: &mut Schemas,
    spots: &SpotMap<'v, 't, 's>,
    index: usize,
    spot: Spot<'v, 't, 's>,
) -> Result<(), OutOfMemory>
    requires { has_hash spot.shape.now.name.now ≡ true }
    ensures { Sets index (shape_at spots.now spot.entry) table.old table.new result }
{
    let shape = spot.shape;
    if is_structure(shape.kind) {
        return define_structure(alloc, table, spots, index, spot);
    }
    let schema = Schema::new(shape_id(shape.name), shape.kind);
    let schema = holding(schema, shape.kind, spot.first)?;
    let schema = with_traits(alloc, schema, copied(&shape.traits))?;
    define(table, index, schema)
}

/// Gives a index the node of natural values. Takes memory.
pub fn define_natural(table: &mut Schemas, index: usize) -> Result<(), OutOfMemory>
    ensures { Sets index defined.natural_node table.old table.new result }
{
    let id = shape_id("smithy.api#Document");
    define(table, index, Schema::new(id, ShapeType::Document))
}
