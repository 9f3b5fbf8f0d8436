// Numbers of JSON texts.
ghost use Rattle.std.specs.Prelude.{◌≡◌, ◌==◌, option_map, slice_index, drop, if◌then◌else◌};
ghost use Rattle.serde_json.specs.View.{number_view};
ghost use Rattle.serde_json.specs.Read.{number_of, float_of};
ghost use Rattle.smithy_json.specs.Integers.{integer_of};

use fast_float::Numeral;
use serde_json::Number;

/// The number that a text writes: an integer of 64 bits, else the nearest float. None where that is infinite.
#[inline(always)]
pub(crate) fn number_of(text: &str) -> Option<Number>
    ensures { option_map number_view result ≡ number_of text.now }
{
    let text = text.as_bytes();
    let is_negative = has_minus(text);
    let digits = behind_minus(text, is_negative);
    let numeral = Numeral::scan(digits);
    match integer(&numeral, is_negative) {
        Some(number) => Some(number),
        None => nearest_float(&numeral, is_negative),
    }
}

// Whether a minus stands first.
#[inline(always)]
fn has_minus(text: &[u8]) -> bool
    ensures { result ≡ (slice_index text.now 0 == 45) }
{
    match text.first() {
        Some(byte) => *byte == b'-',
        None => false,
    }
}

// What stands behind the minus, or all where there is none.
#[inline(always)]
fn behind_minus(text: &[u8], is_negative: bool) -> &[u8]
    ensures { result.now ≡ (if is_negative then drop 1 text.now else text.now) }
{
    match text.split_first() {
        Some((_, digits)) => if is_negative { digits } else { text },
        None => text,
    }
}

// The integer of 64 bits. The text `-0` is none, since a float tells it from `0`.
#[inline(always)]
fn integer(numeral: &Numeral<'_>, is_negative: bool) -> Option<Number>
    ensures { option_map number_view result ≡ integer_of is_negative numeral.now }
{
    if !is_negative {
        return Some(Number::from(numeral.to_u64()?));
    }
    let number = numeral.to_i64(true)?;
    if number < 0 {
        Some(Number::from(number))
    } else {
        None
    }
}

// The float that is nearest, where it is finite.
fn nearest_float(numeral: &Numeral<'_>, is_negative: bool) -> Option<Number>
    ensures { option_map number_view result ≡ float_of is_negative numeral.now }
{
    Number::from_f64(numeral.to_float::<f64>(is_negative))
}
