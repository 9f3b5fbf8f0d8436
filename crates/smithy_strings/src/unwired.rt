// Scalars, read from their texts where they are bound.
ghost use Rattle.std.specs.Prelude.{◌≡◌, IfOk, option_and_then};
ghost use Rattle.base64.specs.Engines.{standard};
ghost use Rattle.base64.specs.GeneralPurpose.{decoded_of};
ghost use Rattle.smithy_schema.specs.Nodes.{Table};
ghost use Rattle.smithy_schema.specs.References.{schema_of};
ghost use Rattle.smithy_serde.specs.ReadCalls.{type_of, scalar_of_read};
ghost use Rattle.smithy_serde.specs.StoredValues.{value_in};
ghost use Rattle.smithy_serde.specs.TextReads.{scalar_of_text as spelled_by};
ghost use Rattle.smithy_serde.specs.Values.{scalar as scalar_value};
ghost use Rattle.std.specs.Bool.{then_some};
ghost use Rattle.smithy_strings.specs.Unwired.{StoresScalar, TellsText, member_scalar, unwired, spelled_wire, text_of_wire, text_of_bytes, time_of_wire};

use crate::spelled::scalar_of_text;
use crate::wire::{Place, format_in, text_or_none, time_format};
use base64::DecodeAllocError;
use base64::engine::general_purpose::STANDARD;
use smithy_ids::{ShapeType, TimestampFormat};
use smithy_schema::SchemaRef;
use smithy_serde::{ReadScalar, ScalarKind, ShapeValue};
use smithy_types::{DateTime, OutOfMemory, Text};
use std::alloc::Global;

/// The scalar of the node's kind whose text, as `wire_text` gives it by the node and the place, this
/// is; none where it is no such scalar's, as with a number that begins with a zero. Takes memory
/// (Smithy, traits `httpHeader`, `httpLabel`, `httpQuery`, `mediaType` and `timestampFormat`).
pub fn wire_value(
    alloc: Global,
    schema: SchemaRef<'_>,
    place: Place,
    text: &str,
) -> Result<Option<ShapeValue>, OutOfMemory>
    ensures { IfOk result (StoresScalar (member_scalar (schema_of schema.entry) place text.now)) }
{
    let has_media_type = schema.media_type().is_some();
    unwired(
        alloc,
        format_in(schema),
        has_media_type,
        place,
        schema.shape_type(),
        text,
    )
}

// The scalar of a kind whose text this is, by a time format and whether there is a media type.
fn unwired(
    alloc: Global,
    format: Option<TimestampFormat>,
    has_media_type: bool,
    place: Place,
    kind: ShapeType,
    text: &str,
) -> Result<Option<ShapeValue>, OutOfMemory>
    ensures { IfOk result (StoresScalar (unwired format has_media_type place kind text.now)) }
{
    let Some(value) = spelled_value(alloc, format, has_media_type, place, kind, text)? else {
        return Ok(None);
    };
    let is_own = has_text(alloc, format, has_media_type, place, &value, text)?;
    Ok(kept(value, is_own))
}

// The value where the test passes.
fn kept(value: ShapeValue, passes: bool) -> Option<ShapeValue>
    ensures { result ≡ then_some passes value }
{
    if passes { Some(value) } else { None }
}

// Whether the text is the value's.
fn has_text(
    alloc: Global,
    format: Option<TimestampFormat>,
    has_media_type: bool,
    place: Place,
    value: &ShapeValue,
    text: &str,
) -> Result<bool, OutOfMemory>
    ensures { IfOk result (TellsText format has_media_type place value.now text.now) }
{
    match text_or_none(alloc, format, has_media_type, place, value)? {
        Some(own) => Ok(own.as_str() == text),
        None => Ok(false),
    }
}

// The one scalar of a kind that may have this text.
fn spelled_value(
    alloc: Global,
    format: Option<TimestampFormat>,
    has_media_type: bool,
    place: Place,
    kind: ShapeType,
    text: &str,
) -> Result<Option<ShapeValue>, OutOfMemory>
    ensures { IfOk result (StoresScalar (spelled_wire format has_media_type place kind text.now)) }
{
    match kind {
        ShapeType::String => string_value(alloc, has_media_type, text),
        ShapeType::Timestamp => Ok(time_value(alloc, format, place, text)),
        ShapeType::Boolean => spelled(alloc, ScalarKind::Boolean, text),
        ShapeType::Byte => spelled(alloc, ScalarKind::Byte, text),
        ShapeType::Short => spelled(alloc, ScalarKind::Short, text),
        ShapeType::Integer => spelled(alloc, ScalarKind::Integer, text),
        ShapeType::Long => spelled(alloc, ScalarKind::Long, text),
        ShapeType::BigInteger => spelled(alloc, ScalarKind::BigInteger, text),
        ShapeType::BigDecimal => spelled(alloc, ScalarKind::BigDecimal, text),
        ShapeType::Blob => spelled(alloc, ScalarKind::Blob, text),
        ShapeType::Float
        | ShapeType::Double
        | ShapeType::Document
        | ShapeType::List
        | ShapeType::Map
        | ShapeType::Structure
        | ShapeType::Union
        | ShapeType::Member => Ok(None),
    }
}

// The scalar of a kind that the text spells.
fn spelled(alloc: Global, kind: ScalarKind, text: &str) -> Result<Option<ShapeValue>, OutOfMemory>
    ensures { IfOk result (StoresScalar (spelled_by (type_of kind) text.now)) }
{
    match scalar_of_text(alloc, kind, text)? {
        Some(scalar) => Ok(Some(stored(scalar))),
        None => Ok(None),
    }
}

#[tactic(auto, unfolding(smithy_serde::specs::StoredValues::value_in))]
fn stored(scalar: ReadScalar) -> ShapeValue
    ensures { (t : Table) → value_in t result ≡ scalar_value (scalar_of_read scalar) }
{
    match scalar {
        ReadScalar::Boolean(value) => ShapeValue::Boolean(value),
        ReadScalar::Byte(value) => ShapeValue::Byte(value),
        ReadScalar::Short(value) => ShapeValue::Short(value),
        ReadScalar::Integer(value) => ShapeValue::Integer(value),
        ReadScalar::Long(value) => ShapeValue::Long(value),
        ReadScalar::BigInteger(value) => ShapeValue::BigInteger(value),
        ReadScalar::BigDecimal(value) => ShapeValue::BigDecimal(value),
        ReadScalar::String(value) => ShapeValue::String(value),
        ReadScalar::Blob(value) => ShapeValue::Blob(value),
        ReadScalar::Timestamp(value) => ShapeValue::Timestamp(value),
        ReadScalar::Document(value) => ShapeValue::Document(value),
    }
}

// A text, or the one whose base64 it is (RFC 4648, section 4; Smithy, mediaType trait).
#[tactic(auto, unfolding(smithy_serde::specs::StoredValues::value_in))]
fn string_value(
    alloc: Global,
    has_media_type: bool,
    text: &str,
) -> Result<Option<ShapeValue>, OutOfMemory>
    ensures { IfOk result (StoresScalar (text_of_wire has_media_type text.now)) }
{
    if has_media_type {
        text_of_base64(alloc, text)
    } else {
        Ok(Some(ShapeValue::text(alloc, text)?))
    }
}

// The text whose base64 it is.
fn text_of_base64(alloc: Global, text: &str) -> Result<Option<ShapeValue>, OutOfMemory>
    ensures { IfOk result (StoresScalar (option_and_then text_of_bytes (decoded_of standard text.now))) }
{
    match STANDARD.decode(alloc, text.as_bytes()) {
        Ok(bytes) => Ok(text_of_bytes(bytes)),
        Err(DecodeAllocError::OutOfMemory) => Err(OutOfMemory),
        Err(DecodeAllocError::DecodeError(_)) => Ok(None),
    }
}

// Bytes as a text.
#[tactic(auto, unfolding(smithy_serde::specs::StoredValues::value_in))]
fn text_of_bytes(bytes: Vec<u8>) -> Option<ShapeValue>
    ensures { StoresScalar (text_of_bytes bytes.items) result }
{
    match String::from_utf8(bytes) {
        Ok(text) => Some(ShapeValue::String(Text::from_string(text))),
        Err(_) => None,
    }
}

// The point in time of a text in the format of a place.
#[tactic(auto, unfolding(smithy_serde::specs::StoredValues::value_in))]
fn time_value(
    alloc: Global,
    format: Option<TimestampFormat>,
    place: Place,
    text: &str,
) -> Option<ShapeValue>
    ensures { StoresScalar (time_of_wire format place text.now) result }
{
    match DateTime::parse(alloc, text, time_format(format, place)) {
        Ok(time) => Some(ShapeValue::Timestamp(time)),
        Err(_) => None,
    }
}
