// JSON texts as values.
ghost use Rattle.std.specs.Prelude.{◌≡◌, ◌≤◌, ◌∷◌, suc, length, IfOk, OnOk, MatchResult, IsTrue};
ghost use Rattle.json.specs.Reads.{token_of};
ghost use Rattle.serde_json.specs.Read.{read};
ghost use Rattle.smithy_json.specs.FromText.{json_of};
ghost use Rattle.smithy_json.specs.views.JsonView.{view, items_view, members_view};
ghost use Rattle.smithy_json.specs.Ordered.{is_ordered};
ghost use Rattle.smithy_json.specs.Reads.{Reads};
ghost use Rattle.smithy_json.specs.Tokens.{value_at, items_at, object_at, NextToken, Takes};

use crate::error::JsonError;
use crate::in_order::{add_member, in_order};
use crate::numbers::number_of;
use crate::value::JsonValue;
use json::{Reader, Scratch, Token};
use simdutf8::compat::from_utf8;
use std::alloc::Global;

// So deep arrays and objects may nest.
const MAX_DEPTH: usize = 127;

/// The value that a JSON text is (RFC 8259), over the text and the room for what it writes in escapes. Takes memory.
///
/// Unreadable where it is no JSON in UTF-8, nests deeper than 127, or has a number past the largest float. Of members with one
/// name the last one stays.
pub fn read_json<'t>(
    alloc: Global,
    text: &'t [u8],
    scratch: &'t mut Scratch,
) -> Result<JsonValue<'t>, JsonError>
    ensures value { Reads view (json_of text.now) result }
    ensures ordered { IfOk result (λ v. IsTrue (is_ordered (view v))) }
{
    match from_utf8(text) {
        Ok(text) => only_value(alloc, text, scratch),
        Err(_) => Err(JsonError::Unreadable),
    }
}

// The value of a text in UTF-8. It is no part of its caller, so that the scratch, of some 16 KiB, is not moved.
#[inline(never)]
fn only_value<'t>(
    alloc: Global,
    text: &'t str,
    scratch: &'t mut Scratch,
) -> Result<JsonValue<'t>, JsonError>
    ensures { Reads view (read text.now) result }
{
    let mut reader = Reader::new(text, scratch)?;
    let first = next_token(&mut reader)?;
    let value = value_from(alloc, &mut reader, first, MAX_DEPTH)?;
    match reader.next() {
        None => Ok(value),
        Some(_) => Err(JsonError::Unreadable),
    }
}

// The token that comes next, where one is wanted.
#[inline(always)]
fn next_token<'t>(reader: &mut Reader<'t>) -> Result<Token<'t>, JsonError>
    ensures { NextToken reader.old reader.new result }
{
    reader.next().ok_or(JsonError::Unreadable)
}

// The value that begins with a token, whose arrays and objects nest so deep at most.
#[cycle(value)]
#[inline(always)]
fn value_from<'t>(
    alloc: Global,
    reader: &mut Reader<'t>,
    first: Token<'t>,
    depth: usize,
) -> Result<JsonValue<'t>, JsonError>
    ensures value { Takes view (value_at depth (token_of first.entry ∷ reader.old)) reader.new result }
    ensures left { OnOk result (length reader.new ≤ length reader.old) }
{
    match first {
        Token::String(text) => Ok(JsonValue::String(text)),
        Token::Number(text) => match number_of(text) {
            Some(number) => Ok(JsonValue::Number(number)),
            None => Err(JsonError::Unreadable),
        },
        Token::Bool(truth) => Ok(JsonValue::Bool(truth)),
        Token::Null => Ok(JsonValue::Null),
        Token::BeginArray => Ok(JsonValue::Array(items_from(alloc, reader, below(depth)?)?)),
        Token::BeginObject => Ok(JsonValue::Object(members_from(alloc, reader, below(depth)?)?)),
        Token::Key(_) | Token::EndArray | Token::EndObject | Token::Bad => {
            Err(JsonError::Unreadable)
        }
    }
}

// How deep the values in an array or an object may nest.
#[inline(always)]
fn below(depth: usize) -> Result<usize, JsonError>
    ensures { MatchResult result (λ below. depth ≡ suc below)
        (λ e. (e ≡ JsonError.Unreadable) × (depth ≡ 0)) }
{
    match depth.checked_sub(1) {
        Some(below) => Ok(below),
        None => Err(JsonError::Unreadable),
    }
}

// The values up to the end of an array.
#[cycle(value)]
#[inline(never)]
fn items_from<'t>(
    alloc: Global,
    reader: &mut Reader<'t>,
    depth: usize,
) -> Result<Vec<JsonValue<'t>>, JsonError>
    ensures items { Takes (λ v. items_view v.items) (items_at depth reader.old) reader.new result }
    ensures left { OnOk result (length reader.new ≤ length reader.old) }
{
    let mut found = Vec::new(alloc);
    'more: while !reader.take_end_array() {
        let first = next_token(reader)?;
        let item = value_from(alloc, reader, first, depth)?;
        found.push(item)?;
    }
    Ok(found)
}

// The members up to the end of an object, in byte order of their names.
#[cycle(value)]
#[inline(never)]
fn members_from<'t>(
    alloc: Global,
    reader: &mut Reader<'t>,
    depth: usize,
) -> Result<Vec<(&'t str, JsonValue<'t>)>, JsonError>
    ensures members { Takes (λ v. members_view v.items) (object_at depth reader.old) reader.new result }
    ensures left { OnOk result (length reader.new ≤ length reader.old) }
{
    let mut found = Vec::new(alloc);
    let mut are_ordered = true;
    'more: while let Some(name) = reader.next_key()? {
        let first = next_token(reader)?;
        let value = value_from(alloc, reader, first, depth)?;
        are_ordered = add_member(&mut found, are_ordered, name, value)?;
    }
    Ok(in_order(alloc, found, are_ordered)?)
}
