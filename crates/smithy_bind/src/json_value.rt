// The codec of the bodies, and the values that it writes.
ghost use Rattle.std.specs.Prelude.{◌≡◌, ◌++◌, codes, IfOk, IfErr};
ghost use Rattle.smithy_serde.specs.DocumentOf.{document_fault, document_of};
ghost use Rattle.smithy_serde.specs.Finishing.{IsReady, IsTextOf};
ghost use Rattle.smithy_serde.specs.ReadCalls.{Begins};
ghost use Rattle.smithy_serde.specs.Refusing.{IsFaultRefusal};
ghost use Rattle.smithy_serde.specs.ValueReading.{structure_of};
ghost use Rattle.smithy_serde.specs.Values.{structure};
ghost use Rattle.smithy_serde.specs.Writing.{TellsStruct};
ghost use Rattle.smithy_document.specs.views.JsonHand.{hand};
ghost use Rattle.smithy_document.specs.JsonHeld.{json_held};
ghost use Rattle.smithy_document.specs.JsonSeen.{json_seen};
ghost use Rattle.smithy_document.specs.JsonText.{json_text};
ghost use Rattle.smithy_bind.specs.Responding.{made_document, shown_document};
ghost use Rattle.smithy_bind.specs.views.AnswerView.{Gives};
ghost use Rattle.smithy_bind.specs.views.ReplyView.{MakesText};

use crate::told::{Answer, refused};
use smithy_document::{JsonCodec, JsonDeserializer, JsonSerializer, json_is_lawful};
use smithy_model::JobError;
use smithy_schema::SchemaRef;
use smithy_serde::{
    Codec, FinishSerializer, SerdeError, SerializableStruct, StructValue, write_struct,
};
use smithy_types::Blob;
use std::alloc::{AllocError, Global};

/// The codec of JSON, which is lawful.
pub fn json_codec() -> JsonCodec
    ensures { ⟦<JsonCodec as Codec>⟧.lawful result }
{
    let codec = JsonCodec;
    json_is_lawful(&codec);
    codec
}

// A serializer of JSON that was told nothing.
fn json_serializer(alloc: Global) -> Result<JsonSerializer, SerdeError>
    ensures ready { IfOk result (λ s. IsReady (json_seen s)) }
    ensures text { IfOk result (λ s. (json_seen s).text ≡ json_text) }
{
    json_codec().create_serializer(alloc)
}

/// A reader of JSON over the bytes. It is refused only for memory.
pub fn json_reader(alloc: Global, bytes: &[u8]) -> Result<JsonDeserializer, SerdeError>
    ensures { IfOk result (λ d. Begins (json_held bytes.now) (hand d)) }
{
    json_codec().create_deserializer(alloc, bytes)
}

// Writes a structure, as `write_struct` does.
fn write_value(
    to: &mut JsonSerializer,
    node: SchemaRef<'_>,
    value: &dyn SerializableStruct,
) -> Result<(), SerdeError>
    ensures { TellsStruct node.entry (writes value.now) (json_seen to.old) (json_seen to.new) result }
{
    write_struct(to, node, value)
}

// The text of the document of a structure that has been read.
fn struct_text(
    serializer: JsonSerializer,
    schema: SchemaRef<'_>,
    value: &StructValue<'_>,
) -> Result<Blob, SerdeError>
    requires { IsReady (json_seen serializer) }
    ensures ok { IfOk result (IsTextOf (json_seen serializer).text (structure_of value.now)) }
    ensures err { IfErr result (IsFaultRefusal (document_fault (structure_of value.now))) }
{
    finished_text(serializer, schema, value)
}

// The text of a structure's document.
fn finished_text(
    mut serializer: JsonSerializer,
    schema: SchemaRef<'_>,
    value: &dyn SerializableStruct,
) -> Result<Blob, SerdeError>
    requires { IsReady (json_seen serializer) }
    ensures ok { IfOk result (IsTextOf (json_seen serializer).text (structure (writes value.now))) }
    ensures err { IfErr result (IsFaultRefusal (document_fault (structure (writes value.now)))) }
{
    write_value(&mut serializer, schema, value)?;
    serializer.finish()
}

// The bytes, with the end of a line.
fn line_of_text(alloc: Global, text: &[u8]) -> Result<Vec<u8>, AllocError>
    ensures { IfOk result (λ v. v.items ≡ text.now ++ codes "\n") }
{
    let mut line = Vec::from_slice(alloc, text)?;
    line.push(b'\n')?;
    Ok(line)
}

/// The JSON text of a structure's document, or the first rule of documents that it breaks. Takes memory.
pub fn document_text(
    alloc: Global,
    schema: SchemaRef<'_>,
    value: &StructValue<'_>,
) -> Result<Blob, SerdeError>
    ensures { MakesText (made_document (document_of (structure_of value.now))) result }
{
    let Ok(serializer) = json_serializer(alloc) else {
        return Err(SerdeError::OutOfMemory);
    };
    struct_text(serializer, schema, value)
}

/// What is told of a structure that was read: the JSON text of its document and the end of the line, or the line of the
/// first rule of documents that it breaks. Takes memory.
pub fn document_told(
    alloc: Global,
    schema: SchemaRef<'_>,
    value: &StructValue<'_>,
) -> Result<Answer, JobError>
    ensures { Gives (shown_document (document_of (structure_of value.now))) result }
{
    match document_text(alloc, schema, value) {
        Ok(text) => Ok(Answer::Output(line_of_text(alloc, text.as_slice())?)),
        Err(refusal) => refused(alloc, &refusal),
    }
}
