// Bytes as values of JSON, whose numbers are texts.
ghost use Rattle.json.specs.Json.{value};
ghost use Rattle.json.specs.Value.{value_view};
ghost use Rattle.smithy_json.specs.Reads.{Reads};
ghost use Rattle.smithy_wire.specs.WireText.{json_in, json_of};
ghost use Rattle.smithy_wire.specs.views.JsonTaken.{Takes};

use json::{Error, Reader, Scratch, Value};
use simdutf8::compat::from_utf8;
use smithy_json::JsonError;
use std::alloc::Global;

// So deep arrays and objects may nest.
const MAX_DEPTH: usize = 127;

/// The JSON value of bytes, over them and the room for what they write in escapes, with each number as its text. `Unreadable`
/// exactly where they are no UTF-8 or no JSON (RFC 8259), or nest deeper than 127. Takes memory.
pub fn json_in<'b>(
    alloc: Global,
    bytes: &'b [u8],
    scratch: &'b mut Scratch,
) -> Result<Value<'b>, JsonError>
    ensures { Reads value_view (json_in bytes.now) result }
{
    match from_utf8(bytes) {
        Ok(text) => only_value(alloc, text, scratch),
        Err(_) => Err(JsonError::Unreadable),
    }
}

// The value that comes next.
fn next_value<'b>(alloc: Global, reader: &mut Reader<'b>) -> Result<Value<'b>, JsonError>
    ensures { Takes (value 127 reader.old) reader.new result }
{
    match Value::read(alloc, reader, MAX_DEPTH) {
        Ok(value) => Ok(value),
        Err(Error::Invalid) => Err(JsonError::Unreadable),
        Err(Error::OutOfMemory) => Err(JsonError::OutOfMemory),
        Err(Error::TooLong) => unreachable!(),
        Err(Error::DuplicateKey) => unreachable!(),
    }
}

// The value of a text in UTF-8.
#[inline(never)]
#[tactic(auto, unfolding(crate::specs::WireText::json_of))]
fn only_value<'b>(
    alloc: Global,
    text: &'b str,
    scratch: &'b mut Scratch,
) -> Result<Value<'b>, JsonError>
    ensures { Reads value_view (json_of text.now) result }
{
    let mut reader = Reader::new(text, scratch)?;
    let value = next_value(alloc, &mut reader)?;
    match reader.next() {
        None => Ok(value),
        Some(_) => Err(JsonError::Unreadable),
    }
}
