// Texts of JSON, each at the end of a buffer.
ghost use Rattle.std.specs.Prelude.{◌≡◌, [], ◌∷◌, ◌++◌, string_bytes, IfOk, OnOk};
ghost use Rattle.std.specs.Fmt.{signed_decimal};
ghost use Rattle.std.specs.List.{list_all};
ghost use Rattle.json.specs.Print.{quoted};
ghost use Rattle.smithy_types.specs.Documents as doc;
ghost use Rattle.smithy_document.specs.Words.{view, base64, number_of, scalar_of, scalar_document as document_of};
ghost use Rattle.serde_json.specs.Written.{comma_if};
ghost use Rattle.smithy_document.specs.JsonText.{json_text};
ghost use Rattle.smithy_document.specs.views.JsonShown.{is_plain_byte, name_shown};

use crate::printing::json_blob;
use base64::engine::general_purpose::STANDARD;
use json::Writer;
use smithy_serde::Scalar;
use smithy_types::{Document, OutOfMemory};
use std::alloc::Global;

// Whether the byte stands for itself between quotes.
#[inline(always)]
fn is_plain(byte: u8) -> bool
    ensures { result ≡ is_plain_byte byte }
{
    byte >= 32 && byte != 34 && byte != 92
}

fn are_plain(bytes: &[u8]) -> bool
    ensures { result ≡ list_all is_plain_byte bytes.now }
{
    for byte in bytes {
        if !is_plain(*byte) {
            return false;
        }
    }
    true
}

// Appends a text between quotes, in which no byte wants an escape.
fn push_plain(text: &mut Vec<u8>, value: &str) -> Result<(), OutOfMemory>
    ensures { OnOk result (text.new.items ≡ text.old.items ++ 34 ∷ (value.now ++ 34 ∷ [])) }
{
    text.try_reserve(value.len() + 2)?;
    text.push(b'"')?;
    text.extend_from_slice(value.as_bytes())?;
    text.push(b'"')?;
    Ok(())
}

// The same with escapes. A writer fills its buffer ahead, so it gets one of its own.
#[inline(never)]
fn push_escaped(alloc: Global, text: &mut Vec<u8>, value: &str) -> Result<(), OutOfMemory>
    ensures { OnOk result (text.new.items ≡ text.old.items ++ quoted value.now) }
{
    let mut writer = Writer::new(Vec::new(alloc));
    writer.string(value)?;
    text.extend_from_slice(&writer.into_inner())?;
    Ok(())
}

// Appends a text between quotes.
fn push_quoted(alloc: Global, text: &mut Vec<u8>, value: &str) -> Result<(), OutOfMemory>
    ensures { OnOk result (text.new.items ≡ text.old.items ++ quoted value.now) }
{
    if are_plain(value.as_bytes()) {
        push_plain(text, value)
    } else {
        push_escaped(alloc, text, value)
    }
}

/// The base64 text of bytes. It is no part of its callers, so that these don't copy the engine's tables.
#[inline(never)]
pub(crate) fn base64_text(alloc: Global, bytes: &[u8]) -> Result<String, OutOfMemory>
    ensures { IfOk result (λ text. string_bytes text ≡ base64 bytes.now) }
{
    Ok(STANDARD.encode(alloc, bytes)?)
}

/// Appends a text between quotes.
pub(crate) fn push_text(alloc: Global, text: &mut Vec<u8>, value: &str) -> Result<(), OutOfMemory>
    ensures { OnOk result (text.new.items ≡ text.old.items ++ json_text (doc.string value.now)) }
{
    push_quoted(alloc, text, value)
}

/// Appends the text of a whole number.
pub(crate) fn push_whole(text: &mut Vec<u8>, value: i64) -> Result<(), OutOfMemory>
    ensures { OnOk result (text.new.items ≡ text.old.items ++ json_text (doc.number (number_of value))) }
{
    push_integer(text, value)
}

fn push_integer(text: &mut Vec<u8>, value: i64) -> Result<(), OutOfMemory>
    ensures { OnOk result (text.new.items ≡ text.old.items ++ signed_decimal value) }
{
    let mut buffer = itoa::Buffer::new();
    text.extend_from_slice(buffer.format(value).as_bytes())?;
    Ok(())
}

/// Appends the text of no value.
pub(crate) fn push_null(text: &mut Vec<u8>) -> Result<(), OutOfMemory>
    ensures { OnOk result (text.new.items ≡ text.old.items ++ json_text doc.null) }
{
    text.extend_from_slice(b"null")?;
    Ok(())
}

/// Appends the text of a truth value.
pub(crate) fn push_boolean(text: &mut Vec<u8>, value: bool) -> Result<(), OutOfMemory>
    ensures { OnOk result (text.new.items ≡ text.old.items ++ json_text (doc.boolean value)) }
{
    if value {
        text.extend_from_slice(b"true")?;
    } else {
        text.extend_from_slice(b"false")?;
    }
    Ok(())
}

/// Appends a comma, where something stands before.
#[inline(always)]
pub(crate) fn push_comma(text: &mut Vec<u8>, later: bool) -> Result<(), OutOfMemory>
    ensures { OnOk result (text.new.items ≡ text.old.items ++ comma_if later) }
{
    if later {
        text.push(b',')?;
    }
    Ok(())
}

/// Appends a name, and the colon before its value.
pub(crate) fn push_name(alloc: Global, text: &mut Vec<u8>, name: &str) -> Result<(), OutOfMemory>
    ensures { OnOk result (text.new.items ≡ text.old.items ++ name_shown name.now) }
{
    push_quoted(alloc, text, name)?;
    text.push(b':')?;
    Ok(())
}

// Appends the text of a document, by a writer of its own.
#[inline(never)]
fn push_document(alloc: Global, text: &mut Vec<u8>, document: &Document) -> Result<(), OutOfMemory>
    ensures { OnOk result (text.new.items ≡ text.old.items ++ json_text (view document.now)) }
{
    let printed = json_blob(alloc, document)?;
    text.extend_from_slice(printed.as_slice())?;
    Ok(())
}

/// Appends the text of a scalar's document.
#[inline(always)]
pub(crate) fn push_scalar(
    alloc: Global,
    text: &mut Vec<u8>,
    scalar: Scalar<'_>,
) -> Result<(), OutOfMemory>
    ensures { OnOk result (text.new.items ≡ text.old.items ++ json_text (document_of (scalar_of scalar.entry))) }
{
    match scalar {
        Scalar::Boolean(value) => push_boolean(text, value),
        Scalar::Byte(value) => push_whole(text, value as i64),
        Scalar::Short(value) => push_whole(text, value as i64),
        Scalar::Integer(value) => push_whole(text, value as i64),
        Scalar::Long(value) => push_whole(text, value),
        Scalar::BigInteger(value) => push_text(alloc, text, value.as_str()),
        Scalar::BigDecimal(value) => push_text(alloc, text, value.as_str()),
        Scalar::String(value) => push_text(alloc, text, value),
        Scalar::Blob(value) => {
            let encoded = base64_text(alloc, value.as_slice())?;
            push_text(alloc, text, encoded.as_str())
        }
        Scalar::Timestamp(value) => push_whole(text, value.secs()),
        Scalar::Document(value) => push_document(alloc, text, value),
        Scalar::Null => push_null(text),
    }
}
