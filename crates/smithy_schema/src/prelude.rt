// The shapes of `smithy.api` that models cite (Smithy, prelude).
ghost use Rattle.std.specs.Prelude.{◌≡◌, ◌≤◌, ◌-◌, ◌++◌, ◌∷◌, [], map, Some, IfOk, OnOk, OnErr, IsOkUnless, length};
ghost use Rattle.smithy_schema.specs.PreludeNodes.{prelude_node, prelude_nodes, prelude_len, HasFirstNodes};
ghost use Rattle.smithy_schema.specs.views.PreludePlaces.{IsInOrderFrom};

use crate::error::SchemaError;
use crate::parts::SchemaIndex;
use crate::schema::Schema;
use crate::schema_ref::prelude_id;
use crate::schemas::Schemas;
use smithy_ids::ShapeType;

/// The places of the prelude's nodes in a table.
#[derive(Clone, Copy, Debug)]
pub struct Prelude {
    pub string: SchemaIndex,
    pub boolean: SchemaIndex,
    pub byte: SchemaIndex,
    pub short: SchemaIndex,
    pub integer: SchemaIndex,
    pub long: SchemaIndex,
    pub float: SchemaIndex,
    pub double: SchemaIndex,
    pub big_integer: SchemaIndex,
    pub big_decimal: SchemaIndex,
    pub blob: SchemaIndex,
    pub timestamp: SchemaIndex,
    pub document: SchemaIndex,
    pub unit: SchemaIndex,
}

// How many nodes the prelude has.
const PRELUDE_LEN: usize = 14;

// The kinds of the nodes, in order. The last is that of the unit structure.
const KINDS: [ShapeType; PRELUDE_LEN] = [
    ShapeType::String,
    ShapeType::Boolean,
    ShapeType::Byte,
    ShapeType::Short,
    ShapeType::Integer,
    ShapeType::Long,
    ShapeType::Float,
    ShapeType::Double,
    ShapeType::BigInteger,
    ShapeType::BigDecimal,
    ShapeType::Blob,
    ShapeType::Timestamp,
    ShapeType::Document,
    ShapeType::Structure,
];

/// Adds the fourteen nodes to a table, in the order of the fields. It refuses only for want of memory; then some of the
/// nodes, the first ones of that order, stand.
pub fn insert_all(table: &mut Schemas) -> Result<Prelude, SchemaError>
    ensures ok { OnOk result (table.new ≡ table.old ++ map Some prelude_nodes) }
    ensures places { IfOk result (IsInOrderFrom (length table.old)) }
    ensures refusal { IsOkUnless result SchemaError.OutOfMemory }
    ensures err { OnErr result (HasFirstNodes table.old table.new) }
{
    insert_each(table)?;
    Ok(ending_at(table.len()))
}

// The node of a kind, at the end of the table.
fn insert_kind(table: &mut Schemas, kind: ShapeType) -> Result<(), SchemaError>
    ensures ok { OnOk result (table.new ≡ table.old ++ Some (prelude_node kind) ∷ []) }
    ensures refusal { IsOkUnless result SchemaError.OutOfMemory }
    ensures err { OnErr result (table.new ≡ table.old) }
{
    match table.insert(Schema::new(prelude_id(kind), kind)) {
        Ok(_) => Ok(()),
        Err(fault) => Err(fault),
    }
}

fn insert_each(table: &mut Schemas) -> Result<(), SchemaError>
    ensures ok { OnOk result (table.new ≡ table.old ++ map Some prelude_nodes) }
    ensures refusal { IsOkUnless result SchemaError.OutOfMemory }
    ensures err { OnErr result (HasFirstNodes table.old table.new) }
{
    let kinds = KINDS;
    for kind in kinds.iter() {
        insert_kind(table, *kind)?;
    }
    Ok(())
}

// The places of fourteen nodes, the last of which stands before this place.
fn ending_at(end: usize) -> Prelude
    requires { prelude_len ≤ end }
    ensures { IsInOrderFrom (end - prelude_len) result }
{
    let first = end - PRELUDE_LEN;
    Prelude {
        string: SchemaIndex(first),
        boolean: SchemaIndex(first + 1),
        byte: SchemaIndex(first + 2),
        short: SchemaIndex(first + 3),
        integer: SchemaIndex(first + 4),
        long: SchemaIndex(first + 5),
        float: SchemaIndex(first + 6),
        double: SchemaIndex(first + 7),
        big_integer: SchemaIndex(first + 8),
        big_decimal: SchemaIndex(first + 9),
        blob: SchemaIndex(first + 10),
        timestamp: SchemaIndex(first + 11),
        document: SchemaIndex(first + 12),
        unit: SchemaIndex(first + 13),
    }
}
