// Structures as documents and back, and what documents and their texts are read as.
ghost use Rattle.std.specs.Prelude.{◌≡◌, IsTrue, IfOk};
ghost use Rattle.smithy_types.specs.DocumentView.{view};
ghost use Rattle.smithy_types.specs.Documents.{is_canonical};
ghost use Rattle.smithy_serde.specs.StoredValues.{HasNode};

use crate::given_job::job_bytes;
use crate::models::placed;
use crate::told::{no_job, refusal_text, writes_text};
use serde_json::Value;
use smithy_binding::HttpRpcProtocol;
use smithy_document::{
    DiscriminatedDocumentExt, DocumentShapeDeserializer, JsonCodec, json_is_lawful,
};
use smithy_ids::ShapeType;
use smithy_json::{Scratch, read_json};
use smithy_schema::{SchemaIndex, SchemaRef, Schemas};
use smithy_serde::laws::texts_tell_apart;
use smithy_serde::{
    Codec, OmitFlags, ReadScalar, ScalarKind, SerdeError, SerializableStruct, ShapeDeserializer,
    ShapeReader, StructValue, ValueReader, kind_word, read_value, value_text,
};
use smithy_types::{DiscriminatedDocument, Document, NoSettings, Text};
use std::alloc::Global;
use test_rows::{Failed, text_of, told_bytes};

/// The answer of one of these calls; none of another.
pub fn answer(alloc: Global, call: &str, given: &Value) -> Result<Option<Text>, Failed> {
    match call {
        "DiscriminatedDocument::as_shape" => Ok(Some(by_model(alloc, given, true)?)),
        "read_value" => Ok(Some(by_model(alloc, given, false)?)),
        "ShapeDeserializer::read" => Ok(Some(number(alloc, given)?)),
        _ => Ok(None),
    }
}

// What is told of the document of a row, read by the input of the row's model.
fn by_model(alloc: Global, given: &Value, is_shape: bool) -> Result<Text, Failed> {
    let bytes = job_bytes(alloc, given)?;
    let mut scratch = Scratch::new(alloc);
    let job = match read_json(alloc, bytes.as_slice(), &mut scratch) {
        Ok(job) => job,
        Err(refusal) => return no_job(alloc, refusal.into()),
    };
    let found = match placed(alloc, &job) {
        Ok(found) => found,
        Err(refusal) => return no_job(alloc, refusal),
    };
    let table = &found.table;
    if table.get(found.index).is_none() {
        return Err(Failed);
    }
    let json = given.get("document").ok_or(Failed)?.to_string(alloc)?;
    let told = if is_shape {
        through_document(alloc, table, found.index, json.as_bytes())
    } else {
        document_value(alloc, table, found.index, json.as_bytes())
    };
    match told {
        Ok(text) => Ok(text),
        Err(refusal) => refusal_text(alloc, &refusal),
    }
}

// Whether a reader of documents takes it.
fn is_canonical(document: &Document) -> bool
    ensures { result ≡ is_canonical (view document.now) }
{
    document.is_canonical()
}

// The structure that a JSON text is read as, as the document with the name of its shape, and read back from it.
fn through_document(
    alloc: Global,
    table: &Schemas,
    place: SchemaIndex,
    json: &[u8],
) -> Result<Text, SerdeError>
    requires { HasNode table.now place.0 }
{
    let reader = ValueReader::new(table, place);
    let mut deserializer = JsonCodec.create_deserializer(alloc, json)?;
    let value = reader.read(alloc, &mut deserializer)?;
    let document = DiscriminatedDocument::<NoSettings>::from_struct(alloc, value.schema(), &value)?;
    if !is_canonical(document.document()) {
        return Err(SerdeError::custom(alloc, "a number has two forms"));
    }
    let (name, kind) = (
        document.discriminator().unwrap_or(""),
        kind_word(document.shape_type()),
    );
    let mut text = Text::from_string(format!(in alloc; "{name}, a {kind}: ")?);
    push_structure(alloc, &mut text, &document.as_shape(alloc, &reader)?)?;
    Ok(text)
}

// Adds the kinds of a structure's writes, and its JSON text.
fn push_structure(
    alloc: Global,
    text: &mut Text,
    value: &StructValue<'_>,
) -> Result<(), SerdeError> {
    if let Some((nodes, writes)) = value.stored_writes() {
        match writes_text(alloc, nodes, writes) {
            Ok(told) => text.push_str(told.as_str())?,
            Err(Failed) => return Err(SerdeError::OutOfMemory),
        }
    }
    let protocol = HttpRpcProtocol::aws_json(JsonCodec);
    json_is_lawful(protocol.codec());
    let keep = OmitFlags::KEEP_ALL;
    let request = protocol.serialize_request(alloc, value, value.schema(), "", keep)?;
    match told_bytes(alloc, request.body().as_slice()) {
        Ok(told) => text.push_str(told.as_str())?,
        Err(Failed) => return Err(SerdeError::OutOfMemory),
    }
    Ok(())
}

// The JSON text of the value that the document of a JSON text is read as.
fn document_value(
    alloc: Global,
    table: &Schemas,
    place: SchemaIndex,
    json: &[u8],
) -> Result<Text, SerdeError>
    requires { HasNode table.now place.0 }
{
    let document = document_of(alloc, json)?;
    let mut reader = DocumentShapeDeserializer::new(&document);
    let value = read_value(alloc, &mut reader, table, place)?;
    let codec = JsonCodec;
    json_is_lawful(&codec);
    texts_tell_apart(&codec);
    let serializer = codec.create_serializer(alloc)?;
    let node = SchemaRef::prelude(ShapeType::Document);
    let text = value_text(serializer, node, table, &value)?;
    match told_bytes(alloc, text.as_slice()) {
        Ok(text) => Ok(text),
        Err(Failed) => Err(SerdeError::OutOfMemory),
    }
}

// The document of a JSON text.
fn document_of(alloc: Global, json: &[u8]) -> Result<Document, SerdeError>
    ensures { IfOk result (λ d. IsTrue (is_canonical (view d))) }
{
    let mut reader = JsonCodec.create_deserializer(alloc, json)?;
    reader.read_document(alloc, SchemaRef::prelude(ShapeType::Document))
}

fn kind_of(word: &str) -> Result<ScalarKind, Failed> {
    match word {
        "bigInteger" => Ok(ScalarKind::BigInteger),
        "bigDecimal" => Ok(ScalarKind::BigDecimal),
        "long" => Ok(ScalarKind::Long),
        _ => Err(Failed),
    }
}

// The number that a JSON text is read as.
fn number(alloc: Global, given: &Value) -> Result<Text, Failed> {
    let kind = kind_of(text_of(given, "kind")?)?;
    let json = given.get("document").ok_or(Failed)?.to_string(alloc)?;
    match scalar(alloc, json.as_bytes(), kind) {
        Ok(ReadScalar::BigInteger(number)) => Ok(Text::from_str(alloc, number.as_str())?),
        Ok(ReadScalar::BigDecimal(number)) => Ok(Text::from_str(alloc, number.as_str())?),
        Ok(ReadScalar::Long(number)) => Ok(Text::from_string(format!(in alloc; "{number}")?)),
        Ok(_) => Err(Failed),
        Err(refusal) => refusal_text(alloc, &refusal),
    }
}

fn scalar(alloc: Global, json: &[u8], kind: ScalarKind) -> Result<ReadScalar, SerdeError> {
    let mut reader = JsonCodec.create_deserializer(alloc, json)?;
    reader.read(alloc, SchemaRef::prelude(ShapeType::Document), kind)
}
