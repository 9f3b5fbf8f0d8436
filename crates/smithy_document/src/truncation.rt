// The integer part of a decimal.
ghost use Rattle.std.specs.Prelude.{◌≡◌, ◌<◌, ◌*◌, ◌/◌, ◌^◌, Some, option_map};
ghost use Rattle.smithy_document.specs.Words.{SomeIff, truncated, whole_text, is_negative, Gives, IsRefusal};
ghost use Rattle.std.specs.Fmt.{signed_decimal};
ghost use Rattle.smithy_serde.specs.Values as value;
ghost use Rattle.smithy_document.specs.Scaling.{scaled, whole_part, too_large};

use crate::decimal_parts::{coefficient, places};
use crate::whole_numbers::integer_of_whole;
use smithy_serde::SerdeError;
use smithy_types::{BigDecimal, BigInteger, Text};
use std::alloc::Global;

// Ten to the power, if that fits.
fn power(exponent: u128) -> Option<u128>
    ensures { SomeIff result (10 ^ exponent < 2 ^ 128) (10 ^ exponent) }
{
    match u32::try_from(exponent) {
        Ok(exponent) => 10u128.checked_pow(exponent),
        Err(_) => None,
    }
}

// The number with so many of its last digits cut off.
fn shrunk(number: u128, places: u128) -> u128
    ensures { result ≡ number / 10 ^ places }
{
    match power(places) {
        Some(power) => number / power,
        None => 0,
    }
}

// The number with so many zeros behind it, if that fits.
fn grown(number: u128, places: u128) -> Option<u128>
    ensures { SomeIff result (number * 10 ^ places < 2 ^ 128) (number * 10 ^ places) }
{
    if number == 0 {
        return Some(0);
    }
    match power(places) {
        Some(power) => number.checked_mul(power),
        None => None,
    }
}

// The integer part of a number whose point is moved to the right, or to the left where the places are negative.
fn scaled(number: u128, places: i128) -> Option<u128>
    ensures { SomeIff result (scaled number places < 2 ^ 128) (scaled number places) }
{
    if places < 0 {
        Some(shrunk(number, places.unsigned_abs()))
    } else {
        grown(number, places.unsigned_abs())
    }
}

// The number with its sign, if it is within 128 bits.
fn signed(negative: bool, size: u128) -> Option<i128>
    ensures { option_map signed_decimal result ≡ whole_text negative size }
{
    if negative {
        0i128.checked_sub_unsigned(size)
    } else {
        0i128.checked_add_unsigned(size)
    }
}

// The integer part of a decimal, if it is within 128 bits.
fn whole_value(number: &BigDecimal) -> Option<i128>
    ensures { option_map signed_decimal result ≡ whole_text (is_negative number.now) (whole_part number.now) }
{
    match scaled(coefficient(number), places(number)) {
        Some(size) => signed(number.as_str().as_bytes().starts_with(b"-"), size),
        None => None,
    }
}

fn too_large(alloc: Global, text: &str) -> SerdeError
    ensures { IsRefusal (too_large text.now) result }
{
    match format!(in alloc;
        "cannot coerce bigDecimal {text} to bigInteger: integer magnitude too large"
    ) {
        Ok(message) => SerdeError::Custom {
            message: Text::from_string(message),
        },
        Err(_) => SerdeError::OutOfMemory,
    }
}

/// The integer part of a decimal, truncated toward zero. It is refused with `Custom` where that is outside 128 bits. Time
/// and memory don't grow with the exponent.
pub(crate) fn truncated(alloc: Global, number: &BigDecimal) -> Result<BigInteger, SerdeError>
    ensures { Gives value.big_integer (Some (truncated number.now)) result }
{
    let text = number.as_str();
    match whole_value(number) {
        Some(value) => integer_of_whole(alloc, value),
        None => Err(too_large(alloc, text)),
    }
}
