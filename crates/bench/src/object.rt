// JSON objects, read by a schema again and again.
ghost use Rattle.smithy_serde.specs.StoredValues.{HasNode};

use crate::counted::check_count;
use crate::failed::Failed;
use crate::sample::{Order, Sizes, insert_structure, object_text};
use smithy_document::JsonCodec;
use smithy_schema::{SchemaIndex, Schemas};
use smithy_serde::{Codec, ShapeReader, ValueReader};
use std::alloc::Global;

// Reads a JSON text as the value of a structure of these sizes, and drops it.
fn read_object(
    alloc: Global,
    table: &Schemas,
    node: SchemaIndex,
    text: &[u8],
    sizes: Sizes,
) -> Result<(), Failed>
    requires { HasNode table.now node.0 }
{
    let mut reader = JsonCodec.create_deserializer(alloc, text)?;
    let value = ValueReader::new(table, node).read(alloc, &mut reader)?;
    check_count(&value, sizes)
}

/// Reads a JSON object of so many String fields, in this order, as the value of its structure, so many times.
pub fn read_objects(alloc: Global, fields: u32, order: Order, times: u32) -> Result<(), Failed> {
    let sizes = Sizes { headers: 0, fields };
    let mut table = Schemas::new(alloc);
    let node = insert_structure(alloc, &mut table, sizes)?;
    if table.get(node).is_none() {
        return Err(Failed);
    }
    let text = object_text(alloc, fields, order)?;
    for _ in 0..times {
        read_object(alloc, &table, node, text.as_bytes(), sizes)?;
    }
    Ok(())
}
