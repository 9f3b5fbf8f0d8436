// The grammar of big numbers, and their coefficients.
ghost use Rattle.std.specs.Prelude.{◌≡◌, ◌+◌, ◌^◌, ◌<◌, ◌≤◌, ◌==◌, ◌&&◌, length, take, drop, position, IsTrue};
ghost use Rattle.std.specs.List.{list_all, position_or_len, before_first, after_first};
ghost use Rattle.std.specs.Option.{SomeIff};
ghost use Rattle.std.specs.Str.Parse.{digits_value_after};
ghost use Rattle.smithy_types.specs.BigNumbers.{is_digit, is_exponent_mark, unsigned, are_digits, is_signed_digits, is_exponent, is_mantissa, mantissa_of, exponent_of, is_big_decimal, coefficient, coefficient_in, has_narrow_coefficient};

use crate::grammar::{after, before};

/// The least coefficient without a sign that is too wide.
const LIMIT: u128 = 170_141_183_460_469_231_731_687_303_715_884_105_728;

/// Whether the bytes are an optional sign and digits.
pub(crate) fn is_signed_digits(text: &[u8]) -> bool
    ensures { result ≡ is_signed_digits text.now }
{
    are_digits(unsigned(text))
}

/// Whether the bytes are an optional sign, a mantissa and an exponent.
pub(crate) fn is_big_decimal(text: &[u8]) -> bool
    ensures { result ≡ is_big_decimal text.now }
{
    let (mantissa, exponent) = mantissa_and_exponent(text);
    is_mantissa(mantissa) && is_exponent(exponent)
}

/// Whether the coefficient with its sign is -2^127 to 2^127 - 1.
pub(crate) fn has_narrow_coefficient(text: &[u8]) -> bool
    requires { IsTrue (is_mantissa (mantissa_of text.now)) }
    ensures { result ≡ has_narrow_coefficient text.now }
{
    let (mantissa, _) = mantissa_and_exponent(text);
    let Some(value) = coefficient(mantissa) else {
        return false;
    };
    if text.starts_with(b"-") {
        value <= LIMIT
    } else {
        value < LIMIT
    }
}

fn unsigned(text: &[u8]) -> &[u8]
    ensures { result.now ≡ unsigned text.now }
{
    match text.split_first() {
        Some((b'+' | b'-', number)) => number,
        _ => text,
    }
}

fn are_digits(text: &[u8]) -> bool
    ensures { result ≡ are_digits text.now }
{
    !text.is_empty() && are_all_digits(text)
}

fn are_all_digits(text: &[u8]) -> bool
    ensures { result ≡ list_all is_digit text.now }
{
    for b in text {
        if !is_ascii_digit(*b) {
            return false;
        }
    }
    true
}

pub(crate) fn is_ascii_digit(b: u8) -> bool
    ensures { result ≡ is_digit b }
{
    matches!(b, b'0'..=b'9')
}

fn is_mantissa(text: &[u8]) -> bool
    ensures { result ≡ is_mantissa text.now }
{
    let (whole, part) = (before(text, b'.'), after(text, b'.'));
    are_all_digits(whole) && are_all_digits(part) && !(whole.is_empty() && part.is_empty())
}

fn is_exponent(text: &[u8]) -> bool
    ensures { result ≡ is_exponent text.now }
{
    match text.split_first() {
        None => true,
        Some((mark, number)) => (*mark == b'e' || *mark == b'E') && is_signed_digits(number),
    }
}

fn mantissa_and_exponent(text: &[u8]) -> (&[u8], &[u8])
    ensures mantissa { result.0.now ≡ mantissa_of text.now }
    ensures exponent { result.1.now ≡ exponent_of text.now }
{
    let number = unsigned(text);
    number.split_at(mark_or_len(number))
}

// The place of the first mark of an exponent, or the length where there is none.
fn mark_or_len(number: &[u8]) -> usize
    ensures value { result ≡ position_or_len is_exponent_mark number.now }
    ensures within { result ≤ length number.now }
{
    match first_mark(number) {
        Some(place) => place,
        None => number.len(),
    }
}

fn first_mark(number: &[u8]) -> Option<usize>
    ensures { result ≡ position is_exponent_mark number.now }
{
    number.iter().position(|b| *b == b'e' || *b == b'E')
}

// The number of a mantissa's digits, if it fits.
fn coefficient(mantissa: &[u8]) -> Option<u128>
    requires { IsTrue (is_mantissa mantissa.now) }
    ensures { SomeIff result (coefficient_in mantissa.now < 2 ^ 128) (coefficient_in mantissa.now) }
{
    let whole = read_on(0, before(mantissa, b'.'))?;
    read_on(whole, after(mantissa, b'.'))
}

// The number that the digits write behind those of a number, if it fits.
fn read_on(start: u128, digits: &[u8]) -> Option<u128>
    requires { IsTrue (list_all is_digit digits.now) }
    ensures { let n = digits_value_after 10 start digits.now in SomeIff result (n < 2 ^ 128) n }
{
    let mut value = start;
    for b in digits {
        value = value.checked_mul(10)?.checked_add(u128::from(*b - b'0'))?;
    }
    Some(value)
}
