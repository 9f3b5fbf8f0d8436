// A decimal as a whole number and a power of ten.
ghost use Rattle.std.specs.Prelude.{◌≡◌, ◌<◌, ◌≤◌, ◌==◌, ◌-◌, ◌^◌, min, pos, ◌-ℤ◌, position, length, IsTrue};
ghost use Rattle.smithy_document.specs.Words.{list_all, position_or_len, before_first, after_first, is_digit, is_exponent_mark, is_signed_digits, is_exponent, mantissa_of, exponent_of, unsigned, coefficient, exponent_value};
ghost use Rattle.std.specs.Str.Parse.{digits_value_after, signed_digits_value};
ghost use Rattle.smithy_document.specs.Scaling.{near, fraction_len};

use smithy_types::BigDecimal;
use std::cmp;

/// An exponent that is further from zero than this counts as this: with it no digit is left before the point, or too many are.
const FAR: u128 = 1 << 100;

/// The number of the digits before an exponent, without the sign.
pub(crate) fn coefficient(number: &BigDecimal) -> u128
    ensures value { result ≡ coefficient number.now }
    ensures narrow { result ≤ 2 ^ 127 }
{
    let (mantissa, _) = mantissa_and_exponent(number.as_str().as_bytes());
    read_on(read_on(0, before_point(mantissa)), behind_point(mantissa))
}

/// By how many places the exponent moves the coefficient, those behind the point taken off.
pub(crate) fn places(number: &BigDecimal) -> i128
    ensures value { result ≡ near (exponent_value (exponent_of number.now)) -ℤ pos (fraction_len number.now) }
    ensures short { fraction_len number.now < 2 ^ 64 }
{
    let (mantissa, exponent) = mantissa_and_exponent(number.as_str().as_bytes());
    exponent_number(exponent) - behind_point(mantissa).len() as i128
}

// What stands before an exponent, and the exponent with its mark.
fn mantissa_and_exponent(text: &[u8]) -> (&[u8], &[u8])
    ensures mantissa { result.0.now ≡ mantissa_of text.now }
    ensures exponent { result.1.now ≡ exponent_of text.now }
{
    let number = unsigned(text);
    number.split_at(mark_place(number))
}

fn unsigned(text: &[u8]) -> &[u8]
    ensures { result.now ≡ unsigned text.now }
{
    match text.split_first() {
        Some((b'+' | b'-', number)) => number,
        _ => text,
    }
}

// The place of the first mark of an exponent, or the length where there is none.
fn mark_place(number: &[u8]) -> usize
    ensures value { result ≡ position_or_len is_exponent_mark number.now }
    ensures within { result ≤ length number.now }
{
    match first_mark(number) {
        Some(place) => place,
        None => number.len(),
    }
}

fn first_mark(number: &[u8]) -> Option<usize>
    ensures { result ≡ position is_exponent_mark number.now }
{
    number.iter().position(|b| *b == b'e' || *b == b'E')
}

// The place of the point, or the length where there is none.
fn point_place(mantissa: &[u8]) -> usize
    ensures value { result ≡ position_or_len (λ b. b == 46) mantissa.now }
    ensures within { result ≤ length mantissa.now }
{
    match first_point(mantissa) {
        Some(place) => place,
        None => mantissa.len(),
    }
}

fn first_point(mantissa: &[u8]) -> Option<usize>
    ensures { result ≡ position (λ b. b == 46) mantissa.now }
{
    mantissa.iter().position(|b| *b == b'.')
}

fn before_point(mantissa: &[u8]) -> &[u8]
    ensures { result.now ≡ before_first (λ b. b == 46) mantissa.now }
{
    let place = point_place(mantissa);
    &mantissa[..place]
}

fn behind_point(mantissa: &[u8]) -> &[u8]
    ensures { result.now ≡ after_first (λ b. b == 46) mantissa.now }
{
    let place = point_place(mantissa);
    if place == mantissa.len() {
        return &[];
    }
    &mantissa[place + 1..]
}

// The number that the digits write behind those of a number, 2^128 - 1 where it is greater.
fn read_on(start: u128, digits: &[u8]) -> u128
    requires { IsTrue (list_all is_digit digits.now) }
    ensures { result ≡ min (digits_value_after 10 start digits.now) (2 ^ 128 - 1) }
{
    let mut value = start;
    for b in digits {
        value = value
            .saturating_mul(10)
            .saturating_add(u128::from(*b - b'0'));
    }
    value
}

// The number of an exponent, 2^100 with its sign where it is further from zero.
fn exponent_number(exponent: &[u8]) -> i128
    requires { IsTrue (is_exponent exponent.now) }
    ensures { result ≡ near (exponent_value exponent.now) }
{
    match exponent.split_first() {
        None => 0,
        Some((_, number)) => signed_number(number),
    }
}

fn signed_number(text: &[u8]) -> i128
    requires { IsTrue (is_signed_digits text.now) }
    ensures { result ≡ near (signed_digits_value 10 text.now) }
{
    let size = cmp::min(read_on(0, unsigned(text)), FAR) as i128;
    if text.starts_with(b"-") { -size } else { size }
}
