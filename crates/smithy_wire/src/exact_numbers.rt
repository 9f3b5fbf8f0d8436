// The numbers of JSON texts, without rounding.
ghost use Rattle.std.specs.Prelude.{◌≡◌, ◌==◌, ◌||◌, if◌then◌else◌, drop, option_map, IfOk};
ghost use Rattle.std.specs.Fmt.{signed_decimal};
ghost use Rattle.smithy_types.specs.DocumentView.{number_view};
ghost use Rattle.smithy_types.specs.BigNumbers.{is_digit};
ghost use Rattle.smithy_wire.specs.Words.{list_all, number_text};
ghost use Rattle.smithy_wire.specs.ExactNumbers.{plain_in, is_number, is_integer, is_below_zero, parts_of, plain_number, exact_in, whole_number, floor_number, integer_number, whole_decimal, decimal_number};

use crate::whole_parts::{floor_in, whole_in};
use fast_float::Numeral;
use smithy_types::{Number, OutOfMemory, Text};
use std::alloc::Global;

/// Whether the text is a number of JSON (RFC 8259, section 6). Takes no memory.
pub(crate) fn is_number(text: &str) -> bool
    ensures { result ≡ is_number text.now }
{
    json::is_number(text)
}

fn are_digits_or_minus(bytes: &[u8]) -> bool
    ensures { result ≡ list_all (λ b. is_digit b || (b == 45)) bytes.now }
{
    for byte in bytes {
        if !(*byte >= b'0' && *byte <= b'9' || *byte == b'-') {
            return false;
        }
    }
    true
}

/// Whether it is one without a point and without an exponent. Takes no memory.
pub(crate) fn is_integer(text: &str) -> bool
    ensures { result ≡ is_integer text.now }
{
    is_number(text) && are_digits_or_minus(text.as_bytes())
}

// Whether a minus stands first.
fn is_below_zero(text: &[u8]) -> bool
    ensures { result ≡ is_below_zero text.now }
{
    match text.first() {
        Some(byte) => *byte == b'-',
        None => false,
    }
}

// What stands behind the minus, or all where there is none.
fn behind_minus(text: &[u8], is_negative: bool) -> &[u8]
    ensures { result.now ≡ (if is_negative then drop 1 text.now else text.now) }
{
    match text.split_first() {
        Some((_, digits)) => if is_negative { digits } else { text },
        None => text,
    }
}

// The digits of a text with the place of the point.
#[tactic(auto, unfolding(crate::specs::ExactNumbers::parts_of))]
fn parts_of(text: &[u8]) -> Numeral<'_>
    ensures { result ≡ parts_of text.now }
{
    Numeral::scan(behind_minus(text, is_below_zero(text)))
}

// The integer of 64 bits that the digits write. Behind a minus zero is none.
fn integer_of(numeral: &Numeral<'_>, is_negative: bool) -> Option<Number>
    ensures { option_map number_view result ≡ plain_in is_negative numeral.now }
{
    if !is_negative {
        return Some(Number::PosInt(numeral.to_u64()?));
    }
    let number = numeral.to_i64(true)?;
    if number < 0 {
        Some(Number::NegInt(number))
    } else {
        None
    }
}

/// The integer of 64 bits that the text writes, as compact JSON has it. Takes no memory.
pub(crate) fn plain_number(text: &str) -> Option<Number>
    ensures { option_map number_view result ≡ plain_number text.now }
{
    let bytes = text.as_bytes();
    integer_of(&parts_of(bytes), is_below_zero(bytes))
}

// The number where it is whole and within 64 bits.
fn exact_in(numeral: &Numeral<'_>, is_negative: bool) -> Option<Number>
    ensures { option_map number_view result ≡ exact_in is_negative numeral.now }
{
    if is_negative {
        Some(Number::from_i64(numeral.whole_i64(true)?))
    } else {
        Some(Number::PosInt(numeral.whole_u64()?))
    }
}

/// The number where it is whole and within 64 bits, however it is spelled: `3.0`, `1.4E9`, and `-0` as 0. Takes no memory.
pub(crate) fn whole_number(text: &str) -> Option<Number>
    ensures { option_map number_view result ≡ whole_number text.now }
{
    match plain_number(text) {
        Some(number) => Some(number),
        None => {
            let bytes = text.as_bytes();
            exact_in(&parts_of(bytes), is_below_zero(bytes))
        }
    }
}

// The number, or its floor, within 64 bits.
fn floor_number(text: &str) -> Option<Number>
    ensures { option_map number_view result ≡ floor_number text.now }
{
    match whole_number(text) {
        Some(number) => Some(number),
        None => {
            let bytes = text.as_bytes();
            floor_in(&parts_of(bytes), is_below_zero(bytes))
        }
    }
}

/// The number within 64 bits, however it is spelled, whose fraction is dropped toward minus infinity, or has to be worth
/// nothing. Takes no memory.
pub(crate) fn integer_number(floors: bool, text: &str) -> Option<Number>
    ensures { option_map number_view result ≡ integer_number floors text.now }
{
    if floors {
        floor_number(text)
    } else {
        whole_number(text)
    }
}

// The number that is whole and within 128 bits.
fn whole_value(text: &str) -> Option<i128>
    ensures { option_map signed_decimal result ≡ whole_decimal text.now }
{
    let bytes = text.as_bytes();
    whole_in(&parts_of(bytes), is_below_zero(bytes))
}

/// Its decimal. Takes memory.
pub(crate) fn whole_decimal(alloc: Global, text: &str) -> Result<Option<Text>, OutOfMemory>
    ensures { IfOk result (λ o. o ≡ whole_decimal text.now) }
{
    match whole_value(text) {
        Some(value) => Ok(Some(Text::from_string(format!(in alloc; "{value}")?))),
        None => Ok(None),
    }
}

/// The number whose decimal the text is. Takes no memory.
pub(crate) fn decimal_number(text: &str) -> Option<Number>
    ensures { option_map number_view result ≡ decimal_number text.now }
{
    if is_integer(text) {
        plain_number(text)
    } else {
        None
    }
}

/// A number in decimal. Takes memory.
pub(crate) fn number_text(alloc: Global, number: Number) -> Result<Text, OutOfMemory>
    ensures { IfOk result (λ t. t ≡ number_text (number_view number)) }
{
    match number {
        Number::PosInt(value) => Ok(Text::from_string(format!(in alloc; "{value}")?)),
        Number::NegInt(value) => Ok(Text::from_string(format!(in alloc; "{value}")?)),
    }
}
