// What is told of the first write of a structure.
ghost use Rattle.std.specs.Prelude.{◌≡◌, IfOk, OnOk};
ghost use Rattle.smithy_document.specs.JsonSeen.{json_seen};
ghost use Rattle.smithy_serde.specs.Finishing.{IsReady};
ghost use Rattle.smithy_serde.specs.StoredValues.{IsDefined};
ghost use Rattle.smithy_serde.specs.Recording.{open_count};

use crate::kinds::{KINDS, word_or_none};
use crate::model::input_schema;
use crate::told::{optional, push_part, refusal};
use crate::value_text::{push_scalar, writes_told};
use crate::values::structure_of;
use serde_json::Value;
use smithy_document::{JsonCodec, JsonSerializer, json_is_lawful};
use smithy_ids::TimestampFormat;
use smithy_schema::{SchemaIndex, SchemaRef, Schemas};
use smithy_serde::{
    Codec, Recorder, SerdeError, SerializableStruct, ShapeSerializer, ShapeValue, finish_struct,
    kind_word, tell, value_text,
};
use smithy_strings::{Place, format_in, scalar_text, text_or_none, wire_text, wire_value};
use smithy_types::{Blob, Text};
use std::alloc::Global;
use std::borrow::CowStr;
use test_rows::{Failed, text_of, told_bytes};

/// What is told of the first write of the structure under `input`, read by the input of the operation under `operation`.
pub fn answer(alloc: Global, call: &str, given: &Value) -> Result<Option<Text>, Failed> {
    let Some(input) = given.get("input") else {
        return Ok(None);
    };
    let placed = input_schema(alloc, given)?;
    let structure = structure_of(alloc, &placed.table, placed.index, input).map_err(|_| Failed)?;
    let Some((table, writes)) = structure.stored_writes() else {
        return Err(Failed);
    };
    let Some((place, value)) = writes.write(0) else {
        return Err(Failed);
    };
    let node = table.get(place).ok_or(Failed)?;
    if let Some(text) = spelled(alloc, call, given, node, value)? {
        return Ok(Some(text));
    }
    told(alloc, call, node, table, value)
}

fn spelled(
    alloc: Global,
    call: &str,
    given: &Value,
    node: SchemaRef<'_>,
    value: &ShapeValue,
) -> Result<Option<Text>, Failed> {
    let text = match call {
        "wire_text" => match wire_text(alloc, node, place_in(given), value) {
            Ok(text) => text,
            Err(error) => refusal(alloc, &error)?,
        },
        "scalar_text" => scalar_told(alloc, given, node, value)?,
        "text_or_none" => optional_told(alloc, given, node, value)?,
        "wire_value" => value_of_text(alloc, given, node)?,
        "format_in" => Text::from_str(alloc, format_word(format_in(node)))?,
        "ShapeValue::fits" => kinds_told(alloc, value)?,
        _ => return Ok(None),
    };
    Ok(Some(text))
}

fn told(
    alloc: Global,
    call: &str,
    node: SchemaRef<'_>,
    table: &Schemas,
    value: &ShapeValue,
) -> Result<Option<Text>, Failed>
    requires { IsDefined table.now value.now }
{
    let text = match call {
        "value_text" => bytes_told(alloc, text_of_value(alloc, node, table, value))?,
        "finish_struct" => bytes_told(alloc, text_of_one(alloc, node, table, value))?,
        "ShapeValue::scalar" => scalar_recorded(alloc, node, table, value)?,
        "tell" => recorded(alloc, node, table, value, false)?,
        "Recorded::table" => recorded(alloc, node, table, value, true)?,
        _ => return Ok(None),
    };
    Ok(Some(text))
}

fn place_in(given: &Value) -> Place {
    match given.get("place").and_then(Value::as_str) {
        Some("query") => Place::Query,
        Some("label") => Place::Label,
        _ => Place::Header,
    }
}

fn format_word(format: Option<TimestampFormat>) -> &'static str {
    match format {
        Some(TimestampFormat::EpochSeconds) => "epoch-seconds",
        Some(TimestampFormat::DateTime) => "date-time",
        Some(TimestampFormat::HttpDate) => "http-date",
        None => "None",
    }
}

// Whether a text is borrowed, and it.
fn lent(alloc: Global, text: &CowStr<'_, Global>) -> Result<Text, Failed> {
    match text {
        CowStr::Borrowed(text) => Ok(Text::from_string(format!(in alloc; "borrowed {text}")?)),
        CowStr::Owned(text) => Ok(Text::from_string(format!(in alloc; "made {text}")?)),
    }
}

fn scalar_told(
    alloc: Global,
    given: &Value,
    node: SchemaRef<'_>,
    value: &ShapeValue,
) -> Result<Text, Failed> {
    let has_media_type = node.media_type().is_some();
    match scalar_text(
        alloc,
        format_in(node),
        has_media_type,
        place_in(given),
        value,
    ) {
        Ok(text) => lent(alloc, &text),
        Err(error) => refusal(alloc, &error),
    }
}

fn optional_told(
    alloc: Global,
    given: &Value,
    node: SchemaRef<'_>,
    value: &ShapeValue,
) -> Result<Text, Failed> {
    let has_media_type = node.media_type().is_some();
    match text_or_none(
        alloc,
        format_in(node),
        has_media_type,
        place_in(given),
        value,
    )? {
        Some(text) => lent(alloc, &text),
        None => optional(alloc, None),
    }
}

// The value whose text stands under `text`.
fn value_of_text(alloc: Global, given: &Value, node: SchemaRef<'_>) -> Result<Text, Failed> {
    let text = text_of(given, "text")?;
    let Some(value) = wire_value(alloc, node, place_in(given), text)? else {
        return optional(alloc, None);
    };
    let mut told = Text::from_str(alloc, value.written_word())?;
    told.push_str(" ")?;
    push_scalar(alloc, &value, &mut told)?;
    optional(alloc, Some(told.as_str()))
}

// The kind of the call that writes a value, and those of the nodes that it fits.
fn kinds_told(alloc: Global, value: &ShapeValue) -> Result<Text, Failed> {
    let mut text = Text::from_str(alloc, word_or_none(value.written_kind()))?;
    text.push_str(" fits")?;
    for kind in KINDS {
        if value.fits(kind) {
            text.push_str(" ")?;
            text.push_str(kind_word(kind))?;
        }
    }
    Ok(text)
}

fn bytes_told(alloc: Global, outcome: Result<Blob, SerdeError>) -> Result<Text, Failed> {
    match outcome {
        Ok(bytes) => told_bytes(alloc, bytes.as_slice()),
        Err(error) => refusal(alloc, &error),
    }
}

// A serializer that was told nothing.
fn ready(alloc: Global) -> Result<JsonSerializer, SerdeError>
    ensures ready { IfOk result (λ s. IsReady (json_seen s)) }
    ensures lists { IfOk result (λ s. (json_seen s).lists ≡ 0) }
{
    json_is_lawful(&JsonCodec);
    JsonCodec.create_serializer(alloc)
}

fn text_of_value(
    alloc: Global,
    node: SchemaRef<'_>,
    table: &Schemas,
    value: &ShapeValue,
) -> Result<Blob, SerdeError>
    requires { IsDefined table.now value.now }
{
    value_text(ready(alloc)?, node, table, value)
}

// The text of a structure of this one write.
fn text_of_one(
    alloc: Global,
    node: SchemaRef<'_>,
    table: &Schemas,
    value: &ShapeValue,
) -> Result<Blob, SerdeError>
    requires { IsDefined table.now value.now }
{
    let mut serializer = ready(alloc)?;
    serializer.open_struct(node)?;
    tell(&mut serializer, node, table, value)?;
    finish_struct(serializer)
}

// A value that is made of no writes, written as it is lent.
fn write_scalar(
    to: &mut Recorder,
    node: SchemaRef<'_>,
    table: &Schemas,
    value: &ShapeValue,
) -> Result<(), SerdeError>
    requires { IsDefined table.now value.now }
    ensures { OnOk result (open_count to.new ≡ open_count to.old) }
{
    match value {
        ShapeValue::Boolean(_)
        | ShapeValue::Byte(_)
        | ShapeValue::Short(_)
        | ShapeValue::Integer(_)
        | ShapeValue::Long(_)
        | ShapeValue::BigInteger(_)
        | ShapeValue::BigDecimal(_)
        | ShapeValue::String(_)
        | ShapeValue::Blob(_)
        | ShapeValue::Timestamp(_)
        | ShapeValue::Document(_)
        | ShapeValue::Null => to.write(node, value.scalar()),
        ShapeValue::List(_) | ShapeValue::Map(_) | ShapeValue::Struct(_) => {
            tell(to, node, table, value)
        }
    }
}

fn scalar_recorded(
    alloc: Global,
    node: SchemaRef<'_>,
    table: &Schemas,
    value: &ShapeValue,
) -> Result<Text, Failed>
    requires { IsDefined table.now value.now }
{
    let mut to = Recorder::new(alloc);
    match write_scalar(&mut to, node, table, value) {
        Ok(()) => finish_told(alloc, to, false),
        Err(error) => refusal(alloc, &error),
    }
}

fn recorded(
    alloc: Global,
    node: SchemaRef<'_>,
    table: &Schemas,
    value: &ShapeValue,
    outlines: bool,
) -> Result<Text, Failed>
    requires { IsDefined table.now value.now }
{
    let mut to = Recorder::new(alloc);
    match tell(&mut to, node, table, value) {
        Ok(()) => finish_told(alloc, to, outlines),
        Err(error) => refusal(alloc, &error),
    }
}

// What was recorded, or what is kept of the node of its first write.
fn finish_told(alloc: Global, to: Recorder, outlines: bool) -> Result<Text, Failed>
    requires { open_count to ≡ 0 }
{
    match to.finish() {
        Ok(recorded) => match recorded.writes().node(0) {
            Some(node) if outlines => outline_told(alloc, recorded.table(), node),
            _ => writes_told(alloc, recorded.table(), recorded.writes()),
        },
        Err(error) => refusal(alloc, &error),
    }
}

// What is kept of a node: its full name, its kind, its name and position as a member, its time format, and no header.
fn outline_told(alloc: Global, table: &Schemas, node: SchemaIndex) -> Result<Text, Failed> {
    let node = table.get(node).ok_or(Failed)?;
    let mut text = Text::from_str(alloc, node.full_name())?;
    push_part(&mut text, kind_word(node.shape_type()))?;
    push_part(&mut text, node.member_name().unwrap_or("None"))?;
    match node.member_index() {
        Some(position) => push_part(&mut text, format!(in alloc; "{position}")?.as_str())?,
        None => push_part(&mut text, "None")?,
    }
    push_part(&mut text, format_word(format_in(node)))?;
    if node.http_header().is_some() {
        push_part(&mut text, "header")?;
    }
    Ok(text)
}
