// Reads of readers, one after the other.
use crate::given::{canonical_document_of, input_of};
use crate::model::input_schema;
use crate::one_read::one_read;
use crate::settings::OwnSettings;
use crate::told::push_part;
use crate::wire::{json_names, wire_of};
use serde_json::Value;
use smithy_document::{DocumentShapeDeserializer, JsonCodec, JsonDeserializer, ShapeSettings};
use smithy_serde::{Codec, ShapeDeserializer};
use smithy_strings::HttpStringCodec;
use smithy_types::{DocumentSettings, NoSettings, Text};
use std::alloc::Global;
use test_rows::{Failed, items_of, text_of};

/// The answers of a reader over `text` to the calls under `reads`, in order.
pub fn answer(alloc: Global, call: &str, given: &Value) -> Result<Option<Text>, Failed> {
    let text = match call {
        "JsonDeserializer" => by_codec(alloc, &JsonCodec, given)?,
        "HttpStringDeserializer" => by_codec(alloc, &HttpStringCodec, given)?,
        "WireJson::create_deserializer" => by_wire(alloc, given)?,
        "JsonDeserializer::of_document" => by_copy(alloc, given)?,
        "JsonDeserializer::of_refusal" => by_refusal(alloc, given)?,
        "DocumentShapeDeserializer::new" => by_document(alloc, given)?,
        "DocumentShapeDeserializer::new_with_settings(OwnSettings)" => {
            by_settings(alloc, &OwnSettings, given)?
        }
        "DocumentShapeDeserializer::new_with_settings(NoSettings)" => {
            by_settings(alloc, &NoSettings, given)?
        }
        "ShapeSettings::reader(NoSettings)" => by_own_reader(alloc, &NoSettings, given)?,
        "ShapeSettings::reader(OwnSettings)" => by_own_reader(alloc, &OwnSettings, given)?,
        _ => return Ok(None),
    };
    Ok(Some(text))
}

fn by_codec<C: Codec>(alloc: Global, codec: &C, given: &Value) -> Result<Text, Failed> {
    let input = input_of(alloc, given)?;
    match codec.create_deserializer(alloc, input.as_slice()) {
        Ok(reader) => all_reads(alloc, reader, given),
        Err(_) => Err(Failed),
    }
}

// By the JSON of the operation's input.
fn by_wire(alloc: Global, given: &Value) -> Result<Text, Failed> {
    let placed = input_schema(alloc, given)?;
    let schema = placed.table.get(placed.index).ok_or(Failed)?;
    let names = json_names(alloc, schema)?;
    by_codec(alloc, &wire_of(alloc, schema, &names, given)?, given)
}

fn by_copy(alloc: Global, given: &Value) -> Result<Text, Failed> {
    let document = canonical_document_of(alloc, given)?;
    all_reads(
        alloc,
        JsonDeserializer::of_document(alloc, &document)?,
        given,
    )
}

fn by_refusal(alloc: Global, given: &Value) -> Result<Text, Failed> {
    let text = Text::from_str(alloc, text_of(given, "text")?)?;
    all_reads(alloc, JsonDeserializer::of_refusal(alloc, text), given)
}

fn by_document(alloc: Global, given: &Value) -> Result<Text, Failed> {
    let document = canonical_document_of(alloc, given)?;
    all_reads(alloc, DocumentShapeDeserializer::new(&document), given)
}

fn by_settings<S: DocumentSettings>(
    alloc: Global,
    settings: &S,
    given: &Value,
) -> Result<Text, Failed> {
    let document = canonical_document_of(alloc, given)?;
    let reader = DocumentShapeDeserializer::new_with_settings(&document, settings);
    all_reads(alloc, reader, given)
}

fn by_own_reader<S: ShapeSettings>(
    alloc: Global,
    settings: &S,
    given: &Value,
) -> Result<Text, Failed> {
    let document = canonical_document_of(alloc, given)?;
    all_reads(alloc, settings.reader(&document), given)
}

// What each call is answered, one behind the other.
fn all_reads<D: ShapeDeserializer + Drop>(
    alloc: Global,
    mut reader: D,
    given: &Value,
) -> Result<Text, Failed> {
    let mut told = Text::from_str(alloc, "")?;
    for call in items_of(given, "reads")? {
        let answer = one_read(alloc, &mut reader, call.as_str().ok_or(Failed)?)?;
        push_part(&mut told, answer.as_str())?;
    }
    Ok(told)
}
