// Points in time from the texts of a calendar.
ghost use Rattle.std.specs.Prelude.{◌≡◌, ◌+◌, ◌*◌, ◌<◌, ◌≤◌, ◌==◌, codes, length, take, drop, slice_index, pos, ◌+ℤ◌, ◌*ℤ◌, IsTrue, IfSome};
ghost use Rattle.std.specs.List.{list_all};
ghost use Rattle.jiff_core.specs.Calendar.{IsEpochDay};
ghost use Rattle.smithy_types.specs.BigNumbers.{is_digit};
ghost use Rattle.smithy_types.specs.TimestampReading.{epoch_seconds_of, calendar_time_of, full_date_of, short_date_of, clock_of, is_weekday_name, has_short_date_form, is_zone, is_zero_fraction, fits_picture, has_picture, number_at, month_number, day_number};

use crate::date_text::{month_name, weekday_name};
use crate::number_text::is_ascii_digit;
use jiff_core::civil::Date;

/// The seconds since 1970 of an optional `-` and digits, if the text is that and they fit.
pub(crate) fn read_epoch_seconds(text: &str) -> Option<i64>
    ensures { result ≡ epoch_seconds_of text.now }
{
    if text.as_bytes().starts_with(b"+") {
        return None;
    }
    text.parse::<i64>().ok()
}

/// The seconds of a date-time of RFC 3339 with the zone `Z`, if the text is one.
pub(crate) fn read_date_time(text: &[u8]) -> Option<i64>
    ensures { result ≡ calendar_time_of 11 full_date_of (codes "Z") text.now }
{
    if text.len() < 19 {
        return None;
    }
    let (date, rest) = text.split_at(11);
    let (clock, zone) = rest.split_at(8);
    if !is_zone(zone, b"Z") {
        return None;
    }
    Some(seconds_at(read_full_date(date)?, read_clock(clock)?))
}

/// The seconds of a date of RFC 7231, section 7.1.1.1, in its preferred form, if the text is one.
pub(crate) fn read_http_date(text: &[u8]) -> Option<i64>
    ensures { result ≡ calendar_time_of 17 short_date_of (codes " GMT") text.now }
{
    if text.len() < 25 {
        return None;
    }
    let (date, rest) = text.split_at(17);
    let (clock, zone) = rest.split_at(8);
    if !is_zone(zone, b" GMT") {
        return None;
    }
    Some(seconds_at(read_short_date(date)?, read_clock(clock)?))
}

fn seconds_at(day: i32, clock: u32) -> i64
    requires { clock < 86400 }
    ensures { result ≡ day *ℤ pos 86400 +ℤ pos clock }
{
    i64::from(day) * 86_400 + i64::from(clock)
}

#[tactic(auto, unfolding(crate::specs::TimestampReading::full_date_of))]
fn read_full_date(text: &[u8]) -> Option<i32>
    ensures { result ≡ full_date_of text.now }
{
    if !has_picture(b"0000-00-00T", text) {
        return None;
    }
    day_number(
        four_digits(text, 0),
        two_digits(text, 5),
        two_digits(text, 8),
    )
}

#[tactic(auto, unfolding(crate::specs::TimestampReading::short_date_of))]
fn read_short_date(text: &[u8]) -> Option<i32>
    requires { length text.now ≡ 17 }
    ensures { result ≡ short_date_of text.now }
{
    if !has_short_date_form(text) {
        return None;
    }
    let month = month_number(&text[8..11])?;
    day_number(four_digits(text, 12), month, two_digits(text, 5))
}

#[tactic(auto, unfolding(crate::specs::TimestampReading::has_short_date_form))]
fn has_short_date_form(text: &[u8]) -> bool
    requires { length text.now ≡ 17 }
    ensures { result ≡ has_short_date_form text.now }
{
    let weekday = is_weekday(&text[..3]);
    let day = has_picture(b", 00 ", &text[3..8]);
    let year = has_picture(b" 0000 ", &text[11..]);
    weekday && (day && year)
}

#[tactic(auto, unfolding(crate::specs::TimestampReading::clock_of, crate::specs::TimestampReading::has_picture))]
fn read_clock(text: &[u8]) -> Option<u32>
    ensures value { result ≡ clock_of text.now }
    ensures bound { IfSome result (λ clock. clock < 86400) }
{
    if !has_picture(b"00:00:00", text) {
        return None;
    }
    let (hour, minute, second) = (
        two_digits(text, 0),
        two_digits(text, 3),
        two_digits(text, 6),
    );
    if hour > 23 || minute > 59 || second > 59 {
        return None;
    }
    Some(u32::from(hour) * 3600 + u32::from(minute) * 60 + u32::from(second))
}

#[tactic(auto, unfolding(crate::specs::TimestampReading::day_number))]
fn day_number(year: u16, month: u8, day: u8) -> Option<i32>
    requires year { year < 10000 }
    requires month { month < 100 }
    requires day { day < 100 }
    ensures { result ≡ day_number year month day }
{
    if year == 0 {
        return None;
    }
    match Date::new(year as i16, month as i8, day as i8) {
        Ok(date) => Some(date.to_unix_epoch_day()),
        Err(_) => None,
    }
}

#[tactic(auto, unfolding(crate::specs::TimestampReading::month_number))]
fn month_number(name: &[u8]) -> Option<u8>
    ensures value { result ≡ month_number name.now }
    ensures bound { IfSome result (λ month. month ≤ 12) }
{
    for month in 1..13 {
        if name == month_name(month).as_slice() {
            return Some(month);
        }
    }
    None
}

#[tactic(auto, unfolding(crate::specs::TimestampReading::is_weekday_name))]
fn is_weekday(name: &[u8]) -> bool
    ensures { result ≡ is_weekday_name name.now }
{
    for day in 0..7 {
        if name == weekday_name(day).as_slice() {
            return true;
        }
    }
    false
}

#[tactic(auto, unfolding(crate::specs::TimestampReading::is_zone))]
fn is_zone(text: &[u8], zone: &[u8]) -> bool
    ensures { result ≡ is_zone zone.now text.now }
{
    let (fraction, end) = text.split_at(text.len().saturating_sub(zone.len()));
    is_zero_fraction(fraction) && end == zone
}

fn is_zero_fraction(text: &[u8]) -> bool
    ensures { result ≡ is_zero_fraction text.now }
{
    match text.split_first() {
        None => true,
        Some((point, zeros)) => *point == b'.' && !zeros.is_empty() && are_zeros(zeros),
    }
}

fn are_zeros(text: &[u8]) -> bool
    ensures { result ≡ list_all (λ b. b == 48) text.now }
{
    for b in text {
        if *b != b'0' {
            return false;
        }
    }
    true
}

// Whether the text has a digit where the picture has a 0, and elsewhere the picture's byte.
#[tactic(auto, unfolding(crate::specs::TimestampReading::has_picture))]
fn has_picture(picture: &[u8], text: &[u8]) -> bool
    ensures { result ≡ has_picture picture.now text.now }
{
    if picture.len() != text.len() {
        return false;
    }
    for place in 0..picture.len() {
        if !fits_picture(picture[place], text[place]) {
            return false;
        }
    }
    true
}

fn fits_picture(picture: u8, b: u8) -> bool
    ensures { result ≡ fits_picture picture b }
{
    if picture == b'0' {
        is_ascii_digit(b)
    } else {
        picture == b
    }
}

// The number of the two digits at a place and behind it.
fn two_digits(text: &[u8], place: usize) -> u8
    requires room { place + 2 ≤ length text.now }
    requires first { IsTrue (is_digit (slice_index text.now place)) }
    requires second { IsTrue (is_digit (slice_index text.now (place + 1))) }
    ensures value { result ≡ number_at place 2 text.now }
    ensures bound { result < 100 }
{
    (text[place] - b'0') * 10 + (text[place + 1] - b'0')
}

// The number of the four digits from a place on.
fn four_digits(text: &[u8], place: usize) -> u16
    requires room { place + 4 ≤ length text.now }
    requires first { IsTrue (is_digit (slice_index text.now place)) }
    requires second { IsTrue (is_digit (slice_index text.now (place + 1))) }
    requires third { IsTrue (is_digit (slice_index text.now (place + 2))) }
    requires fourth { IsTrue (is_digit (slice_index text.now (place + 3))) }
    ensures value { result ≡ number_at place 4 text.now }
    ensures bound { result < 10000 }
{
    u16::from(two_digits(text, place)) * 100 + u16::from(two_digits(text, place + 2))
}
