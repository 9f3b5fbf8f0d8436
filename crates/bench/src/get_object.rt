// An input of four members: `GET /{Bucket}/{Key+}`, a query member and a header member.
ghost use Rattle.std.specs.Prelude.{IfOk};
ghost use Rattle.smithy_serde.specs.StoredValues.{AreDefined};

use crate::failed::Failed;
use crate::inputs::{add, text_value};
use crate::placing::{Doing, do_with};
use smithy_ids::{HttpTrait, ShapeId, ShapeType};
use smithy_schema::{Schema, SchemaError, SchemaIndex, Schemas};
use smithy_serde::{ShapeValue, WriteList};
use std::alloc::Global;

fn shape() -> ShapeId<'static> {
    ShapeId::from_parts("ex#GetIn", "ex", "GetIn")
}

// The node of the structure.
fn insert(table: &mut Schemas) -> Result<SchemaIndex, SchemaError> {
    let bucket = Schema::new_member(shape(), ShapeType::String, "Bucket", 0).with_http_label();
    let id = Schema::new_member(shape(), ShapeType::Integer, "Id", 1).with_http_header("X-Id");
    let key = Schema::new_member(shape(), ShapeType::String, "Key", 2).with_http_label();
    let max = Schema::new_member(shape(), ShapeType::Integer, "Max", 3).with_http_query("max");
    let members = [
        table.insert(bucket)?,
        table.insert(id)?,
        table.insert(key)?,
        table.insert(max)?,
    ];
    let schema = Schema::new_struct(shape(), ShapeType::Structure, &members);
    table.insert(schema.with_http(HttpTrait::new("GET", "/{Bucket}/{Key+}", Some(200))))
}

// `Bucket`, `Key`, `Max` and `Id`.
#[tactic(auto, unfolding(smithy_serde::specs::StoredValues::IsDefined))]
fn get_writes(alloc: Global, table: &Schemas) -> Result<WriteList, Failed>
    ensures { IfOk result (λ w. AreDefined table.now w) }
{
    let mut writes = WriteList::new(alloc);
    add(table, &mut writes, 0, text_value(alloc, "b")?)?;
    add(table, &mut writes, 2, text_value(alloc, "x/y z")?)?;
    add(table, &mut writes, 3, ShapeValue::Integer(3))?;
    add(table, &mut writes, 1, ShapeValue::Integer(7))?;
    Ok(writes)
}

/// Places the input so many times, or reads its request back.
pub fn do_get(alloc: Global, doing: Doing, times: u32) -> Result<(), Failed> {
    let mut table = Schemas::new(alloc);
    let node = insert(&mut table)?;
    let writes = get_writes(alloc, &table)?;
    do_with(alloc, &table, node, writes, doing, times)
}
