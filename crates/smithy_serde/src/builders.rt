// The consumers that build the writes of a value.
ghost use Rattle.smithy_serde.specs.Defined.{AreDefined-prop};
ghost use Rattle.smithy_serde.specs.StoredValues.{HasNode, AreDefined};

use crate::value::WriteList;
use smithy_schema::{SchemaIndex, SchemaRef, Schemas};
use std::alloc::Global;

/// Writes each element of a list.
#[derive(Drop)]
pub struct ListBuilder<'t> {
    pub(crate) alloc: Global,
    pub(crate) table: &'t Schemas,
    pub(crate) element: SchemaIndex,
    pub(crate) writes: WriteList,
    ghost has_node: { HasNode table.now element.0 },
    ghost defined: { AreDefined table.now writes } by { AreDefined-prop table.now writes },
}

/// Writes the key and the value of each entry of a map.
#[derive(Drop)]
pub struct MapBuilder<'t> {
    pub(crate) alloc: Global,
    pub(crate) table: &'t Schemas,
    pub(crate) key: SchemaIndex,
    pub(crate) value: SchemaIndex,
    pub(crate) writes: WriteList,
    ghost has_key: { HasNode table.now key.0 },
    ghost has_value: { HasNode table.now value.0 },
    ghost defined: { AreDefined table.now writes } by { AreDefined-prop table.now writes },
}

/// Writes each member of a structure.
#[derive(Drop)]
pub struct StructBuilder<'t> {
    pub(crate) alloc: Global,
    pub(crate) table: &'t Schemas,
    pub(crate) writes: WriteList,
    ghost defined: { AreDefined table.now writes } by { AreDefined-prop table.now writes },
}

/// Reads a structure by a node.
#[derive(Clone, Copy)]
pub struct ValueReader<'t> {
    pub(crate) table: &'t Schemas,
    pub(crate) schema: SchemaIndex,
    ghost has_node: { HasNode table.now schema.0 },
}

impl StructBuilder<'_> {
    ghost use Rattle.std.specs.Prelude.{IfSome, IfNone};
    ghost use Rattle.smithy_schema.specs.References.{schema_of};
    ghost use Rattle.smithy_serde.specs.ValueRead.{StandsAt, IsPlaced};

    // The place of a member of the builder's table; none where it is another's.
    pub(crate) fn own_member(&self, member: SchemaRef<'_>) -> Option<SchemaIndex>
        ensures defined { IfSome result (λ i. HasNode self.now.table.now i.0) }
        ensures place { IfSome result (λ i. StandsAt (schema_of member.entry) i.0) }
        ensures another { IfNone result (IsPlaced self.now.table.now (schema_of member.entry) → ⊥) }
    {
        let place = member.index()?;
        let table = self.table;
        let _ = table.get(place)?;
        Some(place)
    }
}

impl<'t> ValueReader<'t> {
    ghost use Rattle.std.specs.Prelude.{◌≡◌};
    ghost use Rattle.smithy_schema.specs.Nodes.{at_place};
    ghost use Rattle.smithy_serde.specs.ValueReading.{reader_table, reader_node};

    /// Reads by the node at a place. Condition: it is defined. Takes no memory.
    pub fn new(table: &'t Schemas, schema: SchemaIndex) -> ValueReader<'t>
        requires { HasNode table.now schema.0 }
        ensures table { reader_table result ≡ table.now }
        ensures node { reader_node result ≡ at_place table.now schema.0 }
    {
        ValueReader { table, schema }
    }
}
