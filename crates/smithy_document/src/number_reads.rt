// Documents read as whole numbers.
ghost use Rattle.std.specs.Prelude.{◌≡◌, Some, IsTrue, IfOk, string_bytes};
ghost use Rattle.smithy_document.specs.Words.{view, number_view, integer_of_number, number_text, mismatch, Gives, IsRefusal};
ghost use Rattle.smithy_serde.specs.Values as value;
ghost use Rattle.smithy_document.specs.views.ScalarReads.{GivesScalar};
ghost use Rattle.smithy_document.specs.WholeReads.{is_within, overflow, whole_of_document};

use crate::mismatch::{document_word, mismatch};
use smithy_ids::ShapeType;
use smithy_serde::SerdeError;
use smithy_types::{Document, Number, OutOfMemory};
use std::alloc::Global;

/// The number as it is.
pub(crate) fn integer_of(number: Number) -> i128
    ensures { result ≡ integer_of_number (number_view number) }
{
    match number {
        Number::PosInt(value) => value as i128,
        Number::NegInt(value) => value as i128,
    }
}

// The decimal text of a number. Takes memory.
fn number_text(alloc: Global, number: Number) -> Result<String, OutOfMemory>
    ensures { IfOk result (λ t. string_bytes t ≡ number_text (number_view number)) }
{
    match number {
        Number::PosInt(value) => format!(in alloc; "{value}"),
        Number::NegInt(value) => format!(in alloc; "{value}"),
    }
}

fn overflow(alloc: Global, kind: ShapeType, number: Number) -> SerdeError
    ensures { IsRefusal (overflow kind (number_view number)) result }
{
    match number_text(alloc, number) {
        Ok(text) => SerdeError::numeric_coercion_overflow(
            alloc,
            document_word(kind),
            text.as_str(),
        ),
        Err(_) => SerdeError::OutOfMemory,
    }
}

// A number of at least `least` and less than `limit`.
fn whole(
    alloc: Global,
    document: &Document,
    kind: ShapeType,
    least: i128,
    limit: i128,
) -> Result<i128, SerdeError>
    ensures within { IfOk result (λ z. IsTrue (is_within least limit z)) }
    ensures gives { Gives (λ z. z) (Some (whole_of_document kind least limit (view document.now))) result }
{
    match document {
        Document::Number(number) => {
            let value = integer_of(*number);
            if least <= value && value < limit {
                Ok(value)
            } else {
                Err(overflow(alloc, kind, *number))
            }
        }
        Document::Null => Err(mismatch(alloc, kind, document)),
        Document::Bool(_) => Err(mismatch(alloc, kind, document)),
        Document::String(_) => Err(mismatch(alloc, kind, document)),
        Document::Array(_) => Err(mismatch(alloc, kind, document)),
        Document::Object(_) => Err(mismatch(alloc, kind, document)),
    }
}

/// A number of 8 bits.
pub(crate) fn byte(alloc: Global, document: &Document) -> Result<i8, SerdeError>
    ensures { GivesScalar (value.whole value.byte) ShapeType.Byte document.now result }
{
    Ok(whole(alloc, document, ShapeType::Byte, -0x80, 0x80)? as i8)
}

/// A number of 16 bits.
pub(crate) fn short(alloc: Global, document: &Document) -> Result<i16, SerdeError>
    ensures { GivesScalar (value.whole value.short) ShapeType.Short document.now result }
{
    Ok(whole(alloc, document, ShapeType::Short, -0x8000, 0x8000)? as i16)
}

/// A number of 32 bits.
pub(crate) fn integer(alloc: Global, document: &Document) -> Result<i32, SerdeError>
    ensures { GivesScalar (value.whole value.integer) ShapeType.Integer document.now result }
{
    Ok(whole(
        alloc,
        document,
        ShapeType::Integer,
        -0x8000_0000,
        0x8000_0000,
    )? as i32)
}

/// A number of 64 bits.
pub(crate) fn long(alloc: Global, document: &Document) -> Result<i64, SerdeError>
    ensures { GivesScalar (value.whole value.long) ShapeType.Long document.now result }
{
    Ok(whole(
        alloc,
        document,
        ShapeType::Long,
        -0x8000_0000_0000_0000,
        0x8000_0000_0000_0000,
    )? as i64)
}
