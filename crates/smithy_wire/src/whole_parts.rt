// The whole part of a number of JSON, by its digits.
ghost use Rattle.std.specs.Prelude.{◌≡◌, ◌<◌, ◌-◌, ◌*◌, ◌^◌, ◌++◌, min, take, drop, length, pos, neg_ℤ, option_map, IsTrue};
ghost use Rattle.std.specs.Fmt.{signed_decimal};
ghost use Rattle.std.specs.Option.{SomeIff};
ghost use Rattle.std.specs.Str.Parse.{digits_value, digits_value_after};
ghost use Rattle.fast_float.specs.Text.{point_at, whole_of};
ghost use Rattle.smithy_serde.specs.DocumentReads.{whole_text};
ghost use Rattle.smithy_types.specs.BigNumbers.{is_digit};
ghost use Rattle.smithy_types.specs.DocumentView.{number_view};
ghost use Rattle.smithy_wire.specs.ExactNumbers.{decimal_in, floor_in, if_in_range, is_whole, size_below, value_before, value_behind};
ghost use Rattle.smithy_wire.specs.Words.{list_all};

use fast_float::Numeral;
use smithy_types::Number;
use std::cmp;

// The number that the digits write behind those of a number, 2^128 - 1 where it is greater.
fn read_on(start: u128, digits: &[u8]) -> u128
    requires { IsTrue (list_all is_digit digits.now) }
    ensures { result ≡ min (digits_value_after 10 start digits.now) (2 ^ 128 - 1) }
{
    let mut value = start;
    for b in digits {
        value = value
            .saturating_mul(10)
            .saturating_add(u128::from(*b - b'0'));
    }
    value
}

// The number of digits that stand one part behind the other.
fn read_both(front: &[u8], back: &[u8]) -> u128
    requires front { IsTrue (list_all is_digit front.now) }
    requires back { IsTrue (list_all is_digit back.now) }
    ensures { result ≡ min (digits_value 10 (front.now ++ back.now)) (2 ^ 128 - 1) }
{
    read_on(read_on(0, front), back)
}

fn limited(place: u128, len: usize) -> usize
    ensures { result ≡ min place len }
{
    match usize::try_from(place) {
        Ok(place) => cmp::min(place, len),
        Err(_) => len,
    }
}

// The digits before a place, and those behind it.
#[tactic(auto, using(crate::proofs::WholeLemmas::take_limited, crate::proofs::WholeLemmas::drop_limited))]
fn cut(digits: &[u8], place: u128) -> (&[u8], &[u8])
    ensures front { result.0.now ≡ take place digits.now }
    ensures back { result.1.now ≡ drop place digits.now }
{
    digits.split_at(limited(place, digits.len()))
}

// How many digits stand before the point as it is written, and how many behind it.
fn whole_count(numeral: &Numeral<'_>) -> u128
    ensures value { result ≡ length numeral.now.whole }
    ensures short { result < 2 ^ 64 }
{
    numeral.whole().len() as u128
}

fn fraction_count(numeral: &Numeral<'_>) -> u128
    ensures value { result ≡ length numeral.now.fraction }
    ensures short { result < 2 ^ 64 }
{
    numeral.fraction().len() as u128
}

// How many digits it has before its exponent.
fn digit_count(numeral: &Numeral<'_>) -> u128
    ensures value { result ≡ length (numeral.now.whole ++ numeral.now.fraction) }
    ensures short { result < 2 ^ 65 }
{
    whole_count(numeral) + fraction_count(numeral)
}

// The place of the point among them, once the exponent has moved it, 2^128 - 1 where it is further.
fn point_of(numeral: &Numeral<'_>) -> u128
    ensures { result ≡ min (point_at numeral.now) (2 ^ 128 - 1) }
{
    let moved = read_on(0, numeral.exponent());
    let count = whole_count(numeral);
    if numeral.is_exponent_negative() {
        count.saturating_sub(moved)
    } else {
        count.saturating_add(moved)
    }
}

// The same, behind all digits where it is further.
fn place_of(numeral: &Numeral<'_>) -> u128
    ensures { result ≡ min (point_at numeral.now) (length (numeral.now.whole ++ numeral.now.fraction)) }
{
    cmp::min(point_of(numeral), digit_count(numeral))
}

// The number of the digits before a place.
fn read_before(numeral: &Numeral<'_>, place: u128) -> u128
    ensures { result ≡ min (value_before place numeral.now) (2 ^ 128 - 1) }
{
    let (front, _) = cut(numeral.whole(), place);
    let further = place.saturating_sub(whole_count(numeral));
    let (more, _) = cut(numeral.fraction(), further);
    read_both(front, more)
}

// That of those behind it.
fn read_behind(numeral: &Numeral<'_>, place: u128) -> u128
    ensures { result ≡ min (value_behind place numeral.now) (2 ^ 128 - 1) }
{
    let (_, rest) = cut(numeral.whole(), place);
    let further = place.saturating_sub(whole_count(numeral));
    let (_, back) = cut(numeral.fraction(), further);
    read_both(rest, back)
}

// Whether the digits behind the point are worth nothing.
fn is_whole(numeral: &Numeral<'_>) -> bool
    ensures { result ≡ is_whole numeral.now }
{
    read_behind(numeral, place_of(numeral)) == 0
}

// Ten to the power, if that fits.
fn power(exponent: u128) -> Option<u128>
    ensures { SomeIff result (10 ^ exponent < 2 ^ 128) (10 ^ exponent) }
{
    match u32::try_from(exponent) {
        Ok(exponent) => 10u128.checked_pow(exponent),
        Err(_) => None,
    }
}

// The number with so many zeros behind it, 2^128 - 1 where it is greater.
fn widened(number: u128, zeros: u128) -> u128
    ensures { result ≡ min (number * 10 ^ zeros) (2 ^ 128 - 1) }
{
    if number == 0 {
        return 0;
    }
    match power(zeros) {
        Some(power) => number.saturating_mul(power),
        None => u128::MAX,
    }
}

// The number of the digits before the point, 2^128 - 1 where it is greater.
fn whole_size(numeral: &Numeral<'_>) -> u128
    ensures { result ≡ min (whole_of numeral.now) (2 ^ 128 - 1) }
{
    let zeros = point_of(numeral).saturating_sub(digit_count(numeral));
    widened(read_before(numeral, place_of(numeral)), zeros)
}

// The number with its sign, if it is within 128 bits.
fn signed(is_negative: bool, size: u128) -> Option<i128>
    ensures { option_map signed_decimal result ≡ whole_text is_negative size }
{
    if is_negative {
        0i128.checked_sub_unsigned(size)
    } else {
        0i128.checked_add_unsigned(size)
    }
}

/// The number, where it is whole and within 128 bits. Takes no memory.
pub(crate) fn whole_in(numeral: &Numeral<'_>, is_negative: bool) -> Option<i128>
    ensures { option_map signed_decimal result ≡ decimal_in is_negative numeral.now }
{
    if !is_whole(numeral) {
        return None;
    }
    signed(is_negative, whole_size(numeral))
}

// A number within 64 bits.
fn not_negative(size: u128) -> Option<Number>
    ensures { option_map number_view result ≡ if_in_range (pos size) }
{
    match u64::try_from(size) {
        Ok(value) => Some(Number::PosInt(value)),
        Err(_) => None,
    }
}

// And one behind a minus.
fn negated(size: u128) -> Option<Number>
    ensures { option_map number_view result ≡ if_in_range (neg_ℤ (pos size)) }
{
    match u64::try_from(size) {
        Ok(size) => negated_size(size),
        Err(_) => None,
    }
}

fn negated_size(size: u64) -> Option<Number>
    ensures { option_map number_view result ≡ if_in_range (neg_ℤ (pos size)) }
{
    match 0i64.checked_sub_unsigned(size) {
        Some(value) => Some(Number::from_i64(value)),
        None => None,
    }
}

// The size of a negative number's floor, 2^128 - 1 where it is greater.
fn size_below(numeral: &Numeral<'_>) -> u128
    ensures { result ≡ min (size_below numeral.now) (2 ^ 128 - 1) }
{
    let size = whole_size(numeral);
    if is_whole(numeral) {
        size
    } else {
        size.saturating_add(1)
    }
}

/// The floor, where it is within 64 bits. Takes no memory.
pub(crate) fn floor_in(numeral: &Numeral<'_>, is_negative: bool) -> Option<Number>
    ensures { option_map number_view result ≡ floor_in is_negative numeral.now }
{
    if is_negative {
        negated(size_below(numeral))
    } else {
        not_negative(whole_size(numeral))
    }
}
