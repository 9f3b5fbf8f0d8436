// Values as JSON.
ghost use Rattle.std.specs.Prelude.{IfOk};
ghost use Rattle.smithy_serde.specs.Finishing.{IsReady};
ghost use Rattle.smithy_serde.specs.StoredValues.{IsDefined};
ghost use Rattle.smithy_serde.specs.Writing.{TellsStruct};
ghost use Rattle.smithy_document.specs.JsonSeen.{json_seen};

use crate::told::shortened;
use smithy_document::{JsonCodec, JsonSerializer, json_is_lawful};
use smithy_schema::{SchemaRef, Schemas};
use smithy_serde::{
    Codec, FinishSerializer, SerdeError, SerializableStruct, ShapeSerializer, ShapeValue,
    StructValue, value_text, write_struct,
};
use smithy_types::{Blob, OutOfMemory, Text};
use std::alloc::Global;
use test_rows::{Failed, told_bytes};

// A serializer of JSON that was told nothing.
fn json_serializer(alloc: Global) -> Result<JsonSerializer, SerdeError>
    ensures { IfOk result (λ s. IsReady (⟦<JsonSerializer as ShapeSerializer>⟧.seen s)) }
{
    json_is_lawful(&JsonCodec);
    JsonCodec.create_serializer(alloc)
}

// Writes a structure, as `write_struct` does.
fn write_value(
    to: &mut JsonSerializer,
    node: SchemaRef<'_>,
    value: &dyn SerializableStruct,
) -> Result<(), SerdeError>
    ensures { TellsStruct node.entry (writes value.now) (json_seen to.old) (json_seen to.new) result }
{
    write_struct(to, node, value)
}

// The text of a structure's document.
fn struct_text(
    serializer: JsonSerializer,
    schema: SchemaRef<'_>,
    value: &dyn SerializableStruct,
) -> Result<Blob, SerdeError>
    requires { IsReady (⟦<JsonSerializer as ShapeSerializer>⟧.seen serializer) }
{
    let mut serializer = serializer;
    write_value(&mut serializer, schema, value)?;
    serializer.finish()
}

/// The JSON text of a structure's document; how many bytes it has, where they are many.
pub fn json_of(alloc: Global, value: &StructValue<'_>) -> Result<Text, SerdeError> {
    let serializer = json_serializer(alloc)?;
    let text = struct_text(serializer, value.schema(), value)?;
    Ok(shortened(alloc, text_of(alloc, text.as_slice())?)?)
}

/// The same of a value that is written with a node.
pub fn json_of_value(
    alloc: Global,
    node: SchemaRef<'_>,
    table: &Schemas,
    value: &ShapeValue,
) -> Result<Text, SerdeError>
    requires { IsDefined table.now value.now }
{
    let serializer = json_serializer(alloc)?;
    let text = value_text(serializer, node, table, value)?;
    Ok(shortened(alloc, text_of(alloc, text.as_slice())?)?)
}

/// Bytes as a text.
pub fn text_of(alloc: Global, bytes: &[u8]) -> Result<Text, OutOfMemory> {
    match told_bytes(alloc, bytes) {
        Ok(text) => Ok(text),
        Err(Failed) => Err(OutOfMemory),
    }
}
