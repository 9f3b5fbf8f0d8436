// What is read from a header.
ghost use Rattle.std.specs.Prelude.{◌≡◌, Some};
ghost use Rattle.smithy_response.specs.Words.{schema_of, or_parse_refusal, one_of, one_token, item_of_text, decoded_text, header_format, scalar_of_element, scalar_of_date, has_dates, IsAnswer, type_of};
ghost use Rattle.smithy_ids.specs.declared.shape_type.ShapeType.TheVariants as shape;
ghost use Rattle.smithy_http.specs.DateLists.{dates_of};
ghost use Rattle.smithy_http.specs.HeaderValues.{tokens_of, one_text_of};
ghost use Rattle.smithy_serde.specs.declared.read_scalar.ScalarKind.TheVariants as k;
ghost use Rattle.smithy_response.specs.GivenScalars.{GivesScalar, header_text, header_time, header_elements, header_scalar, token_scalar, AnswersText, AnswersTime, AnswersItems};
ghost use Rattle.smithy_response.specs.PrefixedHeaders.{values_named};

use crate::parts::ListItems;
use crate::refusals::{date_refusal, no_item, no_value, not_parsed};
use base64::DecodeAllocError;
use base64::engine::general_purpose::STANDARD;
use smithy_http::{Headers, HttpError, ListFault, dates, one_text, tokens};
use smithy_ids::{ShapeType, TimestampFormat};
use smithy_schema::SchemaRef;
use smithy_serde::{ReadScalar, ScalarKind, SerdeError};
use smithy_strings::scalar_of_text;
use smithy_types::{DateTime, Format, Longs, Text, Words};
use std::alloc::Global;

/// The kind of shape that is read.
pub(crate) fn shape_type(kind: ScalarKind) -> ShapeType
    ensures { result ≡ type_of kind }
{
    match kind {
        ScalarKind::Boolean => ShapeType::Boolean,
        ScalarKind::Byte => ShapeType::Byte,
        ScalarKind::Short => ShapeType::Short,
        ScalarKind::Integer => ShapeType::Integer,
        ScalarKind::Long => ShapeType::Long,
        ScalarKind::BigInteger => ShapeType::BigInteger,
        ScalarKind::BigDecimal => ShapeType::BigDecimal,
        ScalarKind::String => ShapeType::String,
        ScalarKind::Blob => ShapeType::Blob,
        ScalarKind::Timestamp => ShapeType::Timestamp,
        ScalarKind::Document => ShapeType::Document,
    }
}

// The tokens of a header.
fn header_tokens(alloc: Global, headers: &Headers, name: &str) -> Result<Words, SerdeError>
    ensures { IsAnswer (or_parse_refusal (tokens_of (values_named name.now headers.now))) result }
{
    tokens(alloc, headers, name).map_err(|error| not_parsed(alloc, error))
}

// The dates of a header.
fn header_dates(
    alloc: Global,
    headers: &Headers,
    name: &str,
    format: Format,
) -> Result<Longs, SerdeError>
    ensures { IsAnswer (or_parse_refusal (dates_of format (values_named name.now headers.now))) result }
{
    dates(alloc, headers, name, format).map_err(|error| not_parsed(alloc, error))
}

// The one text of a header.
fn header_text(alloc: Global, headers: &Headers, name: &str) -> Result<Option<Text>, SerdeError>
    ensures { IsAnswer (or_parse_refusal (one_text_of (values_named name.now headers.now))) result }
{
    one_text(alloc, headers, name).map_err(|error| not_parsed(alloc, error))
}

// The only one of texts.
fn only_text(alloc: Global, kind: ShapeType, name: &str, words: &[Text]) -> Result<Text, SerdeError>
    ensures { IsAnswer (one_of kind name.now words.now) result }
{
    let Some((first, others)) = words.split_first() else {
        return Err(no_value(alloc, kind, name));
    };
    match others.split_first() {
        Some(_) => Err(not_parsed(alloc, HttpError::List(ListFault::TooMany))),
        None => Ok(Text::from_str(alloc, first.as_str())?),
    }
}

// The only one of points in time.
fn only_date(alloc: Global, name: &str, seconds: &[i64]) -> Result<i64, SerdeError>
    ensures { IsAnswer (one_of shape.Timestamp name.now seconds.now) result }
{
    let Some((first, others)) = seconds.split_first() else {
        return Err(no_value(alloc, ShapeType::Timestamp, name));
    };
    match others.split_first() {
        Some(_) => Err(not_parsed(alloc, HttpError::List(ListFault::TooMany))),
        None => Ok(*first),
    }
}

// The one token of a header.
fn one_token(
    alloc: Global,
    headers: &Headers,
    name: &str,
    kind: ShapeType,
) -> Result<Text, SerdeError>
    ensures { IsAnswer (one_token kind name.now (values_named name.now headers.now)) result }
{
    let words = header_tokens(alloc, headers, name)?;
    only_text(alloc, kind, name, words.as_slice())
}

// A text as a value of the kind.
fn item_of_text(alloc: Global, kind: ScalarKind, text: &str) -> Result<ReadScalar, SerdeError>
    ensures { GivesScalar kind (Some (item_of_text (type_of kind) text.now)) result }
{
    match scalar_of_text(alloc, kind, text)? {
        Some(scalar) => Ok(scalar),
        None => Err(no_item(alloc, shape_type(kind))),
    }
}

// The text that a base64 text tells.
fn decoded_text(alloc: Global, text: &str) -> Result<Text, SerdeError>
    ensures { AnswersText (decoded_text text.now) result }
{
    match STANDARD.decode(alloc, text.as_bytes()) {
        Ok(bytes) => match String::from_utf8(bytes) {
            Ok(text) => Ok(Text::from_string(text)),
            Err(_) => Err(SerdeError::invalid_input(
                alloc,
                "base64 encoded data was not valid utf-8",
            )),
        },
        Err(DecodeAllocError::OutOfMemory) => Err(SerdeError::OutOfMemory),
        Err(DecodeAllocError::DecodeError(_)) => Err(SerdeError::invalid_input(
            alloc,
            "failed to decode base64",
        )),
    }
}

// The format of dates in headers.
fn header_format(schema: SchemaRef<'_>) -> Format
    ensures { result ≡ header_format (schema_of schema.entry) }
{
    match schema.timestamp_format() {
        Some(named) => match named.format() {
            TimestampFormat::EpochSeconds => Format::EpochSeconds,
            TimestampFormat::DateTime => Format::DateTime,
            TimestampFormat::HttpDate => Format::HttpDate,
        },
        None => Format::HttpDate,
    }
}

// A header as a text.
fn text_of_header(
    alloc: Global,
    headers: &Headers,
    name: &str,
    schema: SchemaRef<'_>,
) -> Result<Text, SerdeError>
    ensures { AnswersText (header_text (schema_of schema.entry) name.now headers.now) result }
{
    if schema.media_type().is_some() {
        let token = one_token(alloc, headers, name, ShapeType::String)?;
        return decoded_text(alloc, token.as_str());
    }
    match header_text(alloc, headers, name)? {
        Some(text) => Ok(text),
        None => Err(no_value(alloc, ShapeType::String, name)),
    }
}

// A header as a point in time.
fn time_of_header(
    alloc: Global,
    headers: &Headers,
    name: &str,
    schema: SchemaRef<'_>,
) -> Result<DateTime, SerdeError>
    ensures { AnswersTime (header_time (schema_of schema.entry) name.now headers.now) result }
{
    let seconds = header_dates(alloc, headers, name, header_format(schema))?;
    let only = only_date(alloc, name, seconds.as_slice())?;
    Ok(DateTime::from_secs(only))
}

/// A header as a scalar of the kind.
pub(crate) fn scalar_of_header(
    alloc: Global,
    headers: &Headers,
    name: &str,
    schema: SchemaRef<'_>,
    kind: ScalarKind,
) -> Result<ReadScalar, SerdeError>
    ensures { GivesScalar kind (header_scalar kind (schema_of schema.entry) name.now headers.now) result }
{
    match kind {
        ScalarKind::String => Ok(ReadScalar::String(text_of_header(alloc, headers, name, schema)?)),
        ScalarKind::Timestamp => Ok(ReadScalar::Timestamp(time_of_header(
            alloc, headers, name, schema,
        )?)),
        ScalarKind::Document => Err(SerdeError::unsupported(
            alloc,
            "a document cannot be bound to an HTTP header",
        )),
        _ => token_scalar(alloc, headers, name, kind),
    }
}

// The one token of a header as a scalar of the kind.
fn token_scalar(
    alloc: Global,
    headers: &Headers,
    name: &str,
    kind: ScalarKind,
) -> Result<ReadScalar, SerdeError>
    ensures { GivesScalar kind (token_scalar kind name.now headers.now) result }
{
    let token = one_token(alloc, headers, name, shape_type(kind))?;
    item_of_text(alloc, kind, token.as_str())
}

/// An element of a header list as a scalar of the kind.
pub(crate) fn scalar_of_element(
    alloc: Global,
    text: &str,
    kind: ScalarKind,
) -> Result<ReadScalar, SerdeError>
    ensures { GivesScalar kind (Some (scalar_of_element (type_of kind) text.now)) result }
{
    match kind {
        ScalarKind::Timestamp => Err(SerdeError::invalid_input(
            alloc,
            "expected a timestamp but the header list was not parsed as timestamps",
        )),
        ScalarKind::Document => Err(SerdeError::unsupported(
            alloc,
            "a document cannot be an element of a header-bound list",
        )),
        _ => item_of_text(alloc, kind, text),
    }
}

/// A date of a header list as a scalar of the kind.
pub(crate) fn scalar_of_date(
    alloc: Global,
    seconds: i64,
    kind: ScalarKind,
) -> Result<ReadScalar, SerdeError>
    ensures { GivesScalar kind (Some (scalar_of_date (type_of kind) seconds)) result }
{
    match kind {
        ScalarKind::Timestamp => Ok(ReadScalar::Timestamp(DateTime::from_secs(seconds))),
        ScalarKind::Document => Err(SerdeError::unsupported(
            alloc,
            "a document cannot be an element of a header-bound list",
        )),
        _ => Err(date_refusal(alloc, shape_type(kind))),
    }
}

// Whether the list's elements are points in time.
fn has_dates(schema: SchemaRef<'_>) -> bool
    ensures { result ≡ has_dates (schema_of schema.entry) }
{
    match schema.element() {
        Some(element) => element.shape_type() == ShapeType::Timestamp,
        None => false,
    }
}

/// The elements of a header that is read as a list: its tokens, or its dates where the list's elements are timestamps.
pub(crate) fn elements_of_header(
    alloc: Global,
    headers: &Headers,
    name: &str,
    schema: SchemaRef<'_>,
) -> Result<ListItems, SerdeError>
    ensures { AnswersItems (header_elements (schema_of schema.entry) name.now headers.now) result }
{
    if has_dates(schema) {
        let seconds = header_dates(alloc, headers, name, header_format(schema))?;
        return Ok(ListItems::Dates(seconds));
    }
    Ok(ListItems::Texts(header_tokens(alloc, headers, name)?))
}
