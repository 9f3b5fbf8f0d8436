// What is measured: requests of one input, placed again and again, or read back.
ghost use Rattle.std.specs.Prelude.{IsTrue};
ghost use Rattle.smithy_schema.specs.References.{schema_of};
ghost use Rattle.smithy_serde.specs.StoredValues.{AreDefined};
ghost use Rattle.smithy_binding.specs.Checked.{checked_input as checked};

use crate::failed::Failed;
use crate::told_struct::ToldStruct;
use crate::way_back::read_back;
use smithy_binding::{HttpBindingProtocol, checked_input};
use smithy_document::{JsonCodec, json_is_lawful};
use smithy_ids::ShapeId;
use smithy_schema::{SchemaIndex, SchemaRef, Schemas};
use smithy_serde::{Codec, OmitFlags, SerializableStruct, StructValue, WriteList};
use std::alloc::Global;

/// What is done with an input: it is placed, keeping its writes ready or telling them one by one, or it is placed once and its
/// request read back.
#[derive(Clone, Copy)]
pub enum Doing {
    PlacingKept,
    PlacingTold,
    ReadingBack,
}

// Places the input so many times, and drops each request.
fn place_checked(
    alloc: Global,
    protocol: &HttpBindingProtocol<JsonCodec>,
    input: &dyn SerializableStruct,
    schema: SchemaRef<'_>,
    times: u32,
) -> Result<(), Failed>
    requires checked { IsTrue (checked (schema_of schema)) }
    requires lawful { ⟦<JsonCodec as Codec>⟧.lawful protocol.now.codec }
{
    for _ in 0..times {
        protocol.serialize_request(alloc, input, schema, "", OmitFlags::KEEP_ALL)?;
    }
    Ok(())
}

/// Places an input of these writes so many times, by the schema at a place of the table, or reads its request back. Fails where
/// the schema is no checked one, and where the input is refused or not recovered.
pub fn do_with(
    alloc: Global,
    table: &Schemas,
    node: SchemaIndex,
    writes: WriteList,
    doing: Doing,
    times: u32,
) -> Result<(), Failed>
    requires { AreDefined table.now writes }
{
    let Some(schema) = table.get(node) else {
        return Err(Failed);
    };
    if !checked_input(alloc, schema)? {
        return Err(Failed);
    }
    let id = ShapeId::from_parts("aws.protocols#restJson1", "aws.protocols", "restJson1");
    let protocol = HttpBindingProtocol::new(id, JsonCodec, "application/json");
    json_is_lawful(protocol.codec());
    let value = StructValue::with_writes(table, node, writes);
    match doing {
        Doing::PlacingKept => place_checked(alloc, &protocol, &value, schema, times),
        Doing::PlacingTold => place_checked(alloc, &protocol, &ToldStruct { value }, schema, times),
        Doing::ReadingBack => {
            let keep = OmitFlags::KEEP_ALL;
            let request = protocol.serialize_request(alloc, &value, schema, "", keep)?;
            read_back(alloc, table, node, &request, times)
        }
    }
}
