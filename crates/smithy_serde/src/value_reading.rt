// The value at hand as a stored value, by a node. What it calls for the items of a container calls it again, so the loops
// of `read_list`, `read_map` and `read_struct` stand here once more, each over the builder that it is for.
ghost use Rattle.std.specs.Prelude.{◌≡◌, ◌&&◌, not, true, OnOk};
ghost use Rattle.smithy_ids.specs.Kinds.{same_kind};
ghost use Rattle.smithy_ids.specs.declared.shape_type.ShapeType.TheVariants as kind;
ghost use Rattle.smithy_schema.specs.Nodes.{Table};
ghost use Rattle.smithy_schema.specs.References.{schema_of as node};
ghost use Rattle.smithy_serde.specs.Values.{scalar as made};
ghost use Rattle.smithy_serde.specs.StoredValues.{HasNode, IsDefined, value_in, writes_in};
ghost use Rattle.smithy_serde.specs.views.ValueBuilding.{list_nodes, map_nodes, struct_table, TakesElement, TakesEntry, TakesMember, ReadsList, ReadsMap, ReadsValue};
ghost use Rattle.smithy_serde.specs.views.ValueBuilding.{ReadsElements, ReadsEntries, ReadsMembers};
ghost use Rattle.smithy_serde.specs.views.Handing.{Same, same_kept};
ghost use Rattle.smithy_serde.specs.MembersRead.{ReadsStruct};
ghost use Rattle.smithy_serde.specs.ReadCalls.{scalar_of_read, is_of_kind};

use crate::builders::{ListBuilder, MapBuilder, StructBuilder};
use crate::consumers::{ElementConsumer, EntryConsumer, MemberConsumer};
use crate::deserializer::ShapeDeserializer;
use crate::error::SerdeError;
use crate::read_plan::{Plan, plan_of, shape_of};
use crate::read_scalar::ReadScalar;
use crate::value::{ShapeValue, WriteList};
use smithy_ids::ShapeType;
use smithy_schema::{SchemaIndex, SchemaRef, Schemas};
use smithy_types::{OutOfMemory, Text};
use std::alloc::Global;

// What is null here is read as the null.
fn reads_null(is_null: bool, shape_type: ShapeType) -> bool
    ensures { result ≡ (is_null && not (same_kind shape_type kind.Document)) }
{
    match shape_type {
        ShapeType::Document => false,
        _ => is_null,
    }
}

#[tactic(auto, unfolding(crate::specs::StoredValues::value_in, crate::specs::StoredValues::IsDefined))]
fn stored(scalar: ReadScalar) -> ShapeValue
    ensures value { (t : Table) → value_in t result ≡ made (scalar_of_read scalar) }
    ensures defined { (k : _) → is_of_kind k (scalar_of_read scalar) ≡ true
        → (t : Table) → IsDefined t result }
{
    match scalar {
        ReadScalar::Boolean(value) => ShapeValue::Boolean(value),
        ReadScalar::Byte(value) => ShapeValue::Byte(value),
        ReadScalar::Short(value) => ShapeValue::Short(value),
        ReadScalar::Integer(value) => ShapeValue::Integer(value),
        ReadScalar::Long(value) => ShapeValue::Long(value),
        ReadScalar::BigInteger(value) => ShapeValue::BigInteger(value),
        ReadScalar::BigDecimal(value) => ShapeValue::BigDecimal(value),
        ReadScalar::String(value) => ShapeValue::String(value),
        ReadScalar::Blob(value) => ShapeValue::Blob(value),
        ReadScalar::Timestamp(value) => ShapeValue::Timestamp(value),
        ReadScalar::Document(value) => ShapeValue::Document(value),
    }
}

impl ElementConsumer for ListBuilder<'_> {
    ghost takes = { TakesElement };

    ghost keeps = { Same list_nodes };

    ghost laws = { same_kept list_nodes };

    #[cycle(read_value)]
    fn element<D: ShapeDeserializer>(&mut self, reader: &mut D) -> Result<(), SerdeError> {
        let value = read_value(self.alloc, reader, self.table, self.element)?;
        self.writes.push(self.element, value)?;
        Ok(())
    }
}

impl EntryConsumer for MapBuilder<'_> {
    ghost takes = { TakesEntry };

    ghost keeps = { Same map_nodes };

    ghost laws = { same_kept map_nodes };

    #[cycle(read_value)]
    fn entry<D: ShapeDeserializer>(&mut self, key: Text, reader: &mut D) -> Result<(), SerdeError> {
        let value = read_value(self.alloc, reader, self.table, self.value)?;
        self.push(key, value)?;
        Ok(())
    }
}

impl MapBuilder<'_> {
    ghost use Rattle.smithy_serde.specs.views.ValueBuilding.{with_entry};

    // The key and the value.
    #[tactic(auto, unfolding(crate::specs::StoredValues::value_in, crate::specs::StoredValues::IsDefined))]
    fn push(&mut self, key: Text, value: ShapeValue) -> Result<(), OutOfMemory>
        requires { IsDefined self.old.table.now value }
        ensures ok { OnOk result (writes_in self.new.table.now self.new.writes
            ≡ with_entry self.old key value) }
        ensures same { Same map_nodes self.old self.new }
    {
        self.writes.push(self.key, ShapeValue::String(key))?;
        self.writes.push(self.value, value)?;
        Ok(())
    }
}

impl MemberConsumer for StructBuilder<'_> {
    ghost takes = { TakesMember };

    ghost keeps = { Same struct_table };

    ghost laws = { same_kept struct_table };

    #[cycle(read_value)]
    fn member<D: ShapeDeserializer>(
        &mut self,
        schema: SchemaRef<'_>,
        reader: &mut D,
    ) -> Result<(), SerdeError> {
        let Some(node) = self.own_member(schema) else {
            let name = schema.member_name().unwrap_or("");
            return Err(SerdeError::unknown_member(self.alloc, name));
        };
        let value = read_value(self.alloc, reader, self.table, node)?;
        self.writes.push(node, value)?;
        Ok(())
    }
}

// `read_list` at a `ListBuilder`, inside the recursion.
#[cycle(read_value)]
fn read_elements<D: ShapeDeserializer>(
    alloc: Global,
    reader: &mut D,
    schema: SchemaRef<'_>,
    consumer: &mut ListBuilder<'_>,
) -> Result<(), SerdeError>
    ensures { ReadsElements D.at_hand (node schema.entry) consumer.old consumer.new reader.old reader.new result }
{
    reader.open_list(alloc, schema)?;
    while reader.next_element(alloc)? {
        consumer.element(reader)?;
    }
    Ok(())
}

// `read_map` at a `MapBuilder`, inside the recursion.
#[cycle(read_value)]
fn read_entries<D: ShapeDeserializer>(
    alloc: Global,
    reader: &mut D,
    schema: SchemaRef<'_>,
    consumer: &mut MapBuilder<'_>,
) -> Result<(), SerdeError>
    ensures { ReadsEntries D.at_hand (node schema.entry) consumer.old consumer.new reader.old reader.new result }
{
    reader.open_map(alloc, schema)?;
    while let Some(key) = reader.next_entry(alloc)? {
        consumer.entry(key, reader)?;
    }
    Ok(())
}

// `read_struct` at a `StructBuilder`, inside the recursion.
#[cycle(read_value)]
fn read_members<D: ShapeDeserializer>(
    alloc: Global,
    reader: &mut D,
    schema: SchemaRef<'_>,
    consumer: &mut StructBuilder<'_>,
) -> Result<(), SerdeError>
    ensures { ReadsMembers D.at_hand (node schema.entry) consumer.old consumer.new reader.old reader.new result }
{
    reader.open_struct(alloc, schema)?;
    while let Some(member) = reader.next_member(alloc, schema)? {
        if let Err(refusal) = consumer.member(member, reader) {
            reader.settle(alloc, refusal)?;
        }
    }
    Ok(())
}

// The list at hand, each element by the node at a place.
#[cycle(read_value)]
#[inline(never)]
#[tactic(auto, unfolding(crate::specs::StoredValues::value_in, crate::specs::StoredValues::IsDefined))]
fn list_value<D: ShapeDeserializer>(
    alloc: Global,
    reader: &mut D,
    table: &Schemas,
    schema: SchemaRef<'_>,
    element: SchemaIndex,
) -> Result<ShapeValue, SerdeError>
    requires { HasNode table.now element.0 }
    ensures { ReadsList D.at_hand table.now (node schema.entry) element.0 reader.old reader.new result }
{
    let mut builder = ListBuilder {
        alloc,
        table,
        element,
        writes: WriteList::new(alloc),
    };
    read_elements(alloc, reader, schema, &mut builder)?;
    let ListBuilder { writes, .. } = builder;
    Ok(ShapeValue::List(writes))
}

// The map at hand, each key and each value by the nodes at two places.
#[cycle(read_value)]
#[inline(never)]
#[tactic(auto, unfolding(crate::specs::StoredValues::value_in, crate::specs::StoredValues::IsDefined))]
fn map_value<D: ShapeDeserializer>(
    alloc: Global,
    reader: &mut D,
    table: &Schemas,
    schema: SchemaRef<'_>,
    key: SchemaIndex,
    value: SchemaIndex,
) -> Result<ShapeValue, SerdeError>
    requires key { HasNode table.now key.0 }
    requires value { HasNode table.now value.0 }
    ensures { ReadsMap D.at_hand table.now (node schema.entry) key.0 value.0 reader.old reader.new result }
{
    let mut builder = MapBuilder {
        alloc,
        table,
        key,
        value,
        writes: WriteList::new(alloc),
    };
    read_entries(alloc, reader, schema, &mut builder)?;
    let MapBuilder { writes, .. } = builder;
    Ok(ShapeValue::Map(writes))
}

/// Reads the structure at hand by the schema's own members: each member that the reader hands out, by its node. It gives
/// their writes in index order, or the first refusal that `settle` answers; a member whose refusal is hidden has none.
/// Condition: the schema stands in the table.
#[cycle(read_value)]
#[inline(never)]
pub fn read_struct_value<D: ShapeDeserializer>(
    alloc: Global,
    reader: &mut D,
    table: &Schemas,
    schema: SchemaRef<'_>,
) -> Result<WriteList, SerdeError>
    requires { (node schema).table ≡ table.now }
    ensures { ReadsStruct table.now (node schema.entry) (D.at_hand reader.old) (D.at_hand reader.new) result }
{
    let mut builder = StructBuilder {
        alloc,
        table,
        writes: WriteList::new(alloc),
    };
    read_members(alloc, reader, schema, &mut builder)?;
    let StructBuilder { writes, .. } = builder;
    Ok(writes.in_index_order(table)?)
}

/// Reads the value at hand by a node.
#[cycle(read_value)]
#[inline(always)]
#[tactic(auto, unfolding(crate::specs::StoredValues::value_in, crate::specs::StoredValues::IsDefined))]
pub fn read_value<D: ShapeDeserializer>(
    alloc: Global,
    reader: &mut D,
    table: &Schemas,
    node: SchemaIndex,
) -> Result<ShapeValue, SerdeError>
    requires { HasNode table.now node.0 }
    ensures { ReadsValue table.now node.0 (D.at_hand reader.old) (D.at_hand reader.new) result }
{
    let Some(schema) = table.get(node) else {
        unreachable!()
    };
    let kind = schema.shape_type();
    if reads_null(reader.is_null(), kind) {
        return Ok(ShapeValue::Null);
    }
    match plan_of(kind, schema) {
        Plan::Scalar(kind) => Ok(stored(reader.read(alloc, schema, kind)?)),
        Plan::List(element) => list_value(alloc, reader, table, schema, element),
        Plan::Map(key, value) => map_value(alloc, reader, table, schema, key, value),
        Plan::Structure => {
            let members = read_struct_value(alloc, reader, table, shape_of(schema))?;
            Ok(ShapeValue::Struct(members))
        }
    }
}
