// The value of a header member (Smithy, HTTP protocol bindings, httpHeader).
ghost use Rattle.std.specs.Prelude.{◌≡◌, option_map};
ghost use Rattle.std.specs.Result.{result_ok};
ghost use Rattle.std.specs.Str.{str_to_ascii_lowercase};
ghost use Rattle.smithy_types.specs.Texts.{same_text};
ghost use Rattle.smithy_http.specs.DateLists.{dates_of};
ghost use Rattle.smithy_http.specs.Facts.{values_of_name};
ghost use Rattle.smithy_http.specs.HeaderValues.{tokens_of, text_of};
ghost use Rattle.smithy_schema.specs.Nodes.{Table};
ghost use Rattle.smithy_schema.specs.References.{schema_of};
ghost use Rattle.smithy_serde.specs.HeaderReads.{header_format};
ghost use Rattle.smithy_serde.specs.ValueRead.{IsPlaced};
ghost use Rattle.smithy_recovery.specs.Finding.{Finds};
ghost use Rattle.smithy_recovery.specs.HeaderParts.{only_of, header_list, list_of_header, scalar_of_header, header_value, named_header};
ghost use Rattle.smithy_recovery.specs.views.Keeping.{Keeps, KeepsOnly, KeepsText, KeepsPartOf};
ghost use Rattle.smithy_recovery.specs.views.KeptHeaders.{values_taken};

use crate::error::RecoverError;
use crate::values::{is_list, scalar_list, scalar_value, time_list, written};
use smithy_http::{GetAllBytes, HeaderPairs, Headers, HttpError, dates, tokens};
use smithy_ids::{ShapeType, TimestampFormat};
use smithy_schema::SchemaRef;
use smithy_serde::ShapeValue;
use smithy_strings::{Place, format_in};
use smithy_types::{Format, Longs, Words};
use std::alloc::Global;

// So many headers are gone through for a name in any case: that costs less than a copy of the name in lower case.
const FEW_HEADERS: usize = 16;

/// Whether the headers are so few that they are gone through for each name.
pub fn are_few(headers: &Headers) -> bool {
    let mut pairs = headers.iter_bytes();
    for _ in 0..FEW_HEADERS {
        if pairs.next().is_none() {
            return true;
        }
    }
    pairs.next().is_none()
}

// The texts that the values of a header spell.
fn texts_in(alloc: Global, headers: &Headers, name: &str) -> Result<Words, RecoverError>
    ensures { Finds (λ w. w) result (result_ok (tokens_of (values_of_name name.now headers.now))) }
{
    match tokens(alloc, headers, name) {
        Ok(words) => Ok(words),
        Err(HttpError::OutOfMemory) => Err(RecoverError::OutOfMemory),
        Err(_) => Err(RecoverError::NotPlaced),
    }
}

// The dates in the values of a header.
fn times_in(
    alloc: Global,
    headers: &Headers,
    name: &str,
    format: Format,
) -> Result<Longs, RecoverError>
    ensures { Finds (λ s. s) result (result_ok (dates_of format (values_of_name name.now headers.now))) }
{
    match dates(alloc, headers, name, format) {
        Ok(seconds) => Ok(seconds),
        Err(HttpError::OutOfMemory) => Err(RecoverError::OutOfMemory),
        Err(_) => Err(RecoverError::NotPlaced),
    }
}

// The format of the times of a header.
fn header_format(element: SchemaRef<'_>) -> Format
    ensures { result ≡ header_format (schema_of element.entry) }
{
    match format_in(element) {
        Some(TimestampFormat::EpochSeconds) => Format::EpochSeconds,
        Some(TimestampFormat::DateTime) => Format::DateTime,
        Some(TimestampFormat::HttpDate) => Format::HttpDate,
        None => Format::HttpDate,
    }
}

// The list that a header with one value spells.
fn header_list(
    alloc: Global,
    headers: &Headers,
    name: &str,
    element: SchemaRef<'_>,
) -> Result<ShapeValue, RecoverError>
    requires { IsPlaced (schema_of element).table (schema_of element) }
    ensures { KeepsOnly (schema_of element.entry) header_list name.now headers.now result }
{
    match element.shape_type() {
        ShapeType::Timestamp => {
            let seconds = times_in(alloc, headers, name, header_format(element))?;
            time_list(alloc, element, seconds.as_slice())
        }
        _ => {
            let texts = texts_in(alloc, headers, name)?;
            scalar_list(alloc, element, Place::Header, texts.as_slice())
        }
    }
}

/// A value as a text, where it is UTF-8.
pub fn text_in(value: &[u8]) -> Option<&str>
    ensures { option_map (λ t. t.now) result ≡ text_of value.now }
{
    match str::from_utf8(value) {
        Ok(text) => Some(text),
        Err(_) => None,
    }
}

// The one value of a header, if it has one. `NotPlaced` where it has several.
fn only_value<'h>(mut values: GetAllBytes<'h>) -> Result<Option<&'h [u8]>, RecoverError>
    ensures { Finds (option_map (λ v. v.now)) result (only_of values.entry) }
{
    let Some(value) = values.next() else {
        return Ok(None);
    };
    match values.next() {
        Some(_) => Err(RecoverError::NotPlaced),
        None => Ok(Some(value)),
    }
}

// Whether a name in lower case is this name, which may be in any case.
fn is_lower_of(lower: &str, name: &str) -> bool
    ensures { result ≡ same_text lower.now (str_to_ascii_lowercase name.now) }
{
    let (lower, name) = (lower.as_bytes(), name.as_bytes());
    if lower.len() != name.len() {
        return false;
    }
    for (place, b) in name.iter().enumerate() {
        if lower[place] != b.to_ascii_lowercase() {
            return false;
        }
    }
    true
}

// The first value of a name among headers, and the headers behind it.
fn next_named<'h>(mut headers: HeaderPairs<'h>, name: &str) -> Option<(&'h [u8], HeaderPairs<'h>)>
    ensures { values_of_name name.now headers.entry ≡ values_taken name.now result }
{
    while let Some((own, value)) = headers.next() {
        if is_lower_of(own, name) {
            return Some((value, headers));
        }
    }
    None
}

// The one value of a name among headers, if it has one. `NotPlaced` where it has several.
fn only_among<'h>(headers: HeaderPairs<'h>, name: &str) -> Result<Option<&'h [u8]>, RecoverError>
    ensures { Finds (option_map (λ v. v.now)) result (only_of (values_of_name name.now headers.entry)) }
{
    let Some((value, behind)) = next_named(headers, name) else {
        return Ok(None);
    };
    match next_named(behind, name) {
        Some(_) => Err(RecoverError::NotPlaced),
        None => Ok(Some(value)),
    }
}

// The same of all headers, which are gone through where they are few.
fn only_named<'h>(
    headers: &'h Headers,
    few: bool,
    name: &'h str,
) -> Result<Option<&'h [u8]>, RecoverError>
    ensures { Finds (option_map (λ v. v.now)) result (only_of (values_of_name name.now headers.now)) }
{
    if few {
        only_among(headers.iter_bytes(), name)
    } else {
        only_value(headers.get_all_bytes(name))
    }
}

// The scalar of a header's text.
fn header_scalar(
    alloc: Global,
    member: SchemaRef<'_>,
    value: &[u8],
) -> Result<ShapeValue, RecoverError>
    ensures { (t : Table) → Keeps t (scalar_of_header (schema_of member.entry) value.now) result }
{
    match text_in(value) {
        Some(text) => scalar_value(alloc, member, Place::Header, text),
        None => Err(RecoverError::NotPlaced),
    }
}

// The list of a header with one value.
fn element_list(
    alloc: Global,
    headers: &Headers,
    name: &str,
    member: SchemaRef<'_>,
) -> Result<ShapeValue, RecoverError>
    ensures { KeepsOnly (schema_of member.entry) list_of_header name.now headers.now result }
{
    match member.element() {
        Some(element) => header_list(alloc, headers, name, element),
        None => Err(RecoverError::NotPlaced),
    }
}

// The value of a header with this one value.
fn header_value(
    alloc: Global,
    headers: &Headers,
    name: &str,
    member: SchemaRef<'_>,
    value: &[u8],
) -> Result<ShapeValue, RecoverError>
    ensures { KeepsText (schema_of member.entry) header_value name.now headers.now value.now result }
{
    if is_list(member.shape_type()) {
        element_list(alloc, headers, name, member)
    } else {
        header_scalar(alloc, member, value)
    }
}

// The value of a header of this name: none where no such header stands. `NotPlaced` where there are several.
fn named_value(
    alloc: Global,
    headers: &Headers,
    few: bool,
    name: &str,
    member: SchemaRef<'_>,
) -> Result<Option<ShapeValue>, RecoverError>
    ensures { KeepsPartOf (schema_of member.entry) (named_header name.now headers.now) result }
{
    match only_named(headers, few, name)? {
        Some(value) => written(header_value(alloc, headers, name, member, value)),
        None => Ok(None),
    }
}

// The same by the name in lower case, for which no search is needed where there are many headers.
fn lowered_value(
    alloc: Global,
    headers: &Headers,
    name: &str,
    member: SchemaRef<'_>,
) -> Result<Option<ShapeValue>, RecoverError>
    ensures { KeepsPartOf (schema_of member.entry) (named_header name.now headers.now) result }
{
    let lower = name.to_ascii_lowercase(alloc)?;
    named_value(alloc, headers, false, lower.as_str(), member)
}

/// The value of a header member: none where no header of its name stands. `NotPlaced` where there are several, or where
/// the text is none of a value. Where the headers are few, they are gone through for the name. Takes memory.
pub fn header_part(
    alloc: Global,
    headers: &Headers,
    few: bool,
    name: &str,
    member: SchemaRef<'_>,
) -> Result<Option<ShapeValue>, RecoverError>
    ensures { KeepsPartOf (schema_of member.entry) (named_header name.now headers.now) result }
{
    if few {
        named_value(alloc, headers, true, name, member)
    } else {
        lowered_value(alloc, headers, name, member)
    }
}
