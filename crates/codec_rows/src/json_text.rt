// Values as JSON texts, and readers of them.
ghost use Rattle.std.specs.Prelude.{◌≡◌, IfOk};
ghost use Rattle.smithy_document.specs.JsonSeen.{json_seen};

use serde_json::Value;
use smithy_document::{JsonCodec, JsonDeserializer, JsonSerializer};
use smithy_ids::ShapeType;
use smithy_schema::SchemaRef;
use smithy_serde::{Codec, FinishSerializer, SerdeError, ShapeSerializer};
use smithy_types::{Document, Text};
use std::alloc::Global;

/// The node of a value that has no other: the prelude's document.
pub fn plain() -> SchemaRef<'static> {
    SchemaRef::prelude(ShapeType::Document)
}

/// A serializer that was told nothing.
pub fn fresh(alloc: Global) -> Result<JsonSerializer, SerdeError>
    ensures { IfOk result (λ s. (json_seen s).lists ≡ 0) }
{
    JsonCodec.create_serializer(alloc)
}

/// What a serializer without an open list was told.
pub fn finished(alloc: Global, serializer: JsonSerializer) -> Result<Text, SerdeError>
    requires { (json_seen serializer).lists ≡ 0 }
{
    let bytes = serializer.finish()?;
    match str::from_utf8(bytes.as_slice()) {
        Ok(text) => Ok(Text::from_str(alloc, text)?),
        Err(_) => Err(SerdeError::custom(alloc, "JSON that is no text")),
    }
}

/// The JSON text of a document.
pub fn document_text(alloc: Global, document: &Document) -> Result<Text, SerdeError> {
    if !document.is_canonical() {
        return Err(SerdeError::custom(alloc, "a number in two forms"));
    }
    let mut serializer = fresh(alloc)?;
    serializer.write_document(plain(), document)?;
    finished(alloc, serializer)
}

/// A reader of a value of a row.
pub fn reader_of(alloc: Global, value: &Value) -> Result<JsonDeserializer, SerdeError> {
    let text = value.to_string(alloc)?;
    JsonCodec.create_deserializer(alloc, text.as_bytes())
}
