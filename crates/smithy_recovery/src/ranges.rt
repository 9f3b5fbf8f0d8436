// The numbers and texts of stored values.
ghost use Rattle.std.specs.Prelude.{◌≡◌, ◌^◌};
ghost use Rattle.smithy_types.specs.BigNumbers.{is_big_integer_in_range, is_big_decimal_in_range};
ghost use Rattle.smithy_schema.specs.Nodes.{Table};
ghost use Rattle.smithy_serde.specs.Ranges.{is_signed_within, are_bytes, is_scalar_in_range, is_in_range, are_writes_in_range};
ghost use Rattle.smithy_serde.specs.StoredValues.{value_in, writes_in};
ghost use Rattle.smithy_serde.specs.Writing.{scalar_of};

use crate::document_ranges::{is_document_in_range, is_text};
use smithy_serde::{Scalar, ShapeValue, WriteList};
use smithy_types::{BigDecimal, BigInteger, DateTime};

// Whether these are bytes, as each are.
fn are_bytes(bytes: &[u8]) -> bool
    ensures { result ≡ are_bytes bytes.now }
{
    let _count = bytes.len();
    true
}

// Whether the text of a number is of its grammar, as each is.
fn is_big_integer(number: &BigInteger) -> bool
    ensures { result ≡ is_big_integer_in_range number.now }
{
    let _text = number.as_str();
    true
}

fn is_big_decimal(number: &BigDecimal) -> bool
    ensures { result ≡ is_big_decimal_in_range number.now }
{
    let _text = number.as_str();
    true
}

// Whether a point in time is within 64 bits, as each is.
fn is_time(time: &DateTime) -> bool
    ensures { result ≡ is_signed_within (2 ^ 63) time.now }
{
    let _seconds = time.secs();
    true
}

fn is_scalar_in_range(scalar: Scalar<'_>) -> bool
    ensures { result ≡ is_scalar_in_range (scalar_of scalar.entry) }
{
    match scalar {
        Scalar::Boolean(_) => true,
        Scalar::Byte(_value) => true,
        Scalar::Short(_value) => true,
        Scalar::Integer(_value) => true,
        Scalar::Long(_value) => true,
        Scalar::BigInteger(number) => is_big_integer(number),
        Scalar::BigDecimal(number) => is_big_decimal(number),
        Scalar::String(text) => is_text(text),
        Scalar::Blob(blob) => are_bytes(blob.as_slice()),
        Scalar::Timestamp(time) => is_time(time),
        Scalar::Document(document) => is_document_in_range(document),
        Scalar::Null => true,
    }
}

/// Whether each number of a value is within the range of its kind and each text is UTF-8, as they are in each value of a
/// program. Takes no memory.
#[cycle(in_range)]
#[tactic(auto, unfolding(smithy_serde::specs::StoredValues::value_in))]
pub fn is_in_range(value: &ShapeValue) -> bool
    ensures { (t : Table) → result ≡ is_in_range (value_in t value.now) }
{
    match value {
        ShapeValue::List(writes) => are_in_range(writes),
        ShapeValue::Map(writes) => are_in_range(writes),
        ShapeValue::Struct(writes) => are_in_range(writes),
        _ => is_scalar_in_range(value.scalar()),
    }
}

#[cycle(in_range)]
fn are_in_range(writes: &WriteList) -> bool
    ensures { (t : Table) → result ≡ are_writes_in_range (writes_in t writes.now) }
{
    'parts: for (_, part) in writes.iter() {
        if !is_in_range(part) {
            return false;
        }
    }
    true
}
