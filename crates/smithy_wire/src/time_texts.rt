// The points in time that texts spell.
ghost use Rattle.std.specs.Prelude.{◌≡◌, ◌++◌, ◌==◌, true, codes, length, take, IfOk, option_map};
ghost use Rattle.std.specs.List.{list_all};
ghost use Rattle.std.specs.Option.{is_some};
ghost use Rattle.smithy_types.specs.BigNumbers.{are_digits, is_digit};
ghost use Rattle.smithy_types.specs.TimestampReading.{timestamp_of};
ghost use Rattle.smithy_types.specs.declared.date_time.Format.TheVariants as time_format;
ghost use Rattle.smithy_wire.specs.WireTimes.{at_end, at_offset, at_zone, before_end, before_offset, before_zone, clipped, in_zone, is_behind, offset_sign, spelled, without_fraction, without_offset};
ghost use Rattle.smithy_wire.specs.views.TimeCuts.{CutsAtPoint};

use smithy_types::{DateTime, Format, OutOfMemory};
use std::alloc::Global;

// The seconds since 1970 of the first second of year 1, and of the last one of year 9999.
const FIRST_SECOND: i64 = -62_135_596_800;

const LAST_SECOND: i64 = 253_402_300_799;

// The seconds that a text tells in a format.
fn told_seconds(alloc: Global, format: Format, text: &str) -> Option<i64>
    ensures { result ≡ timestamp_of format text.now }
{
    match DateTime::parse(alloc, text, format) {
        Ok(time) => Some(time.secs()),
        Err(_) => None,
    }
}

fn are_all_digits(text: &[u8]) -> bool
    ensures { result ≡ list_all is_digit text.now }
{
    for byte in text {
        if !(*byte >= b'0' && *byte <= b'9') {
            return false;
        }
    }
    true
}

fn are_digits(text: &[u8]) -> bool
    ensures { result ≡ are_digits text.now }
{
    !text.is_empty() && are_all_digits(text)
}

fn split_at_point<'x>(text: &'x str) -> Option<(&'x str, &'x str)>
    ensures { CutsAtPoint text.now result }
{
    text.split_once('.')
}

// Without a point and digits at its end.
fn without_fraction(text: &str) -> &str
    ensures { result.now ≡ without_fraction text.now }
{
    match split_at_point(text) {
        Some((whole, fraction)) => {
            if are_digits(fraction.as_bytes()) {
                whole
            } else {
                text
            }
        }
        None => text,
    }
}

fn clipped(floors: bool, text: &str) -> &str
    ensures { result.now ≡ clipped floors text.now }
{
    if floors { without_fraction(text) } else { text }
}

// The seconds of a date and a clock in a zone.
fn zone_seconds(
    alloc: Global,
    floors: bool,
    format: Format,
    text: &str,
    zone: &str,
) -> Result<Option<i64>, OutOfMemory>
    ensures { IfOk result (λ o. o ≡ at_zone floors format zone.now text.now) }
{
    let whole = clipped(floors, text);
    let time = format!(in alloc; "{whole}{zone}")?;
    Ok(told_seconds(alloc, format, time.as_str()))
}

// What stands before a zone.
fn before_zone<'x>(text: &'x str, zone: &str) -> Option<&'x str>
    ensures { option_map (λ t. t.now) result ≡ before_zone zone.now text.now }
{
    text.strip_suffix(zone)
}

// Whether an offset's sign says that the time is behind.
fn is_behind(sign: u8) -> Option<bool>
    ensures { result ≡ is_behind sign }
{
    match sign {
        b'+' => Some(false),
        b'-' => Some(true),
        _ => None,
    }
}

fn offset_sign(text: &[u8]) -> Option<bool>
    ensures { result ≡ offset_sign text.now }
{
    if text.len() >= 6 {
        is_behind(text[text.len() - 6])
    } else {
        None
    }
}

// What stands before an offset.
fn before_offset(text: &str) -> &str
    requires { is_some (offset_sign text.now) ≡ true }
    ensures { result.now ≡ before_end 6 text.now }
{
    &text[..text.len() - 6]
}

// The clock of an offset.
fn offset_clock(text: &str) -> &str
    requires { is_some (offset_sign text.now) ≡ true }
    ensures { result.now ≡ at_end 5 text.now }
{
    &text[text.len() - 5..]
}

// The point in time in the zone `Z`, in the years 1 to 9999.
fn without_offset(is_behind: bool, offset: i64, seconds: i64) -> Option<i64>
    ensures { result ≡ without_offset is_behind offset seconds }
{
    let moved = if is_behind {
        seconds.checked_add(offset)?
    } else {
        seconds.checked_sub(offset)?
    };
    if moved >= FIRST_SECOND && moved <= LAST_SECOND {
        Some(moved)
    } else {
        None
    }
}

fn offset_seconds(
    alloc: Global,
    floors: bool,
    is_behind: bool,
    front: &str,
    clock: &str,
) -> Result<Option<i64>, OutOfMemory>
    ensures { IfOk result (λ o. o ≡ before_offset floors is_behind front.now clock.now) }
{
    let day = format!(in alloc; "1970-01-01T{clock}:00Z")?;
    let Some(offset) = told_seconds(alloc, Format::DateTime, day.as_str()) else {
        return Ok(None);
    };
    match zone_seconds(alloc, floors, Format::DateTime, front, "Z")? {
        Some(seconds) => Ok(without_offset(is_behind, offset, seconds)),
        None => Ok(None),
    }
}

// Those of a date-time before an offset.
fn at_offset(alloc: Global, floors: bool, text: &str) -> Result<Option<i64>, OutOfMemory>
    ensures { IfOk result (λ o. o ≡ at_offset floors text.now) }
{
    match offset_sign(text.as_bytes()) {
        Some(is_behind) => {
            let (front, clock) = (before_offset(text), offset_clock(text));
            offset_seconds(alloc, floors, is_behind, front, clock)
        }
        None => Ok(None),
    }
}

// Those of a date-time in capitals.
fn in_zone(alloc: Global, floors: bool, text: &str) -> Result<Option<i64>, OutOfMemory>
    ensures { IfOk result (λ o. o ≡ in_zone floors text.now) }
{
    match before_zone(text, "Z") {
        Some(front) => zone_seconds(alloc, floors, Format::DateTime, front, "Z"),
        None => at_offset(alloc, floors, text),
    }
}

fn date_time_seconds(alloc: Global, floors: bool, text: &str) -> Result<Option<i64>, OutOfMemory>
    ensures { IfOk result (λ o. o ≡ spelled floors time_format.DateTime text.now) }
{
    match told_seconds(alloc, Format::DateTime, text) {
        Some(seconds) => Ok(Some(seconds)),
        None => {
            let capitals = text.to_ascii_uppercase(alloc)?;
            in_zone(alloc, floors, capitals.as_str())
        }
    }
}

fn http_date_seconds(alloc: Global, floors: bool, text: &str) -> Result<Option<i64>, OutOfMemory>
    ensures { IfOk result (λ o. o ≡ spelled floors time_format.HttpDate text.now) }
{
    match told_seconds(alloc, Format::HttpDate, text) {
        Some(seconds) => Ok(Some(seconds)),
        None => match before_zone(text, " GMT") {
            Some(front) => zone_seconds(alloc, floors, Format::HttpDate, front, " GMT"),
            None => Ok(None),
        },
    }
}

/// The seconds that a text spells. A fraction of a second other than zeros is dropped, or the text is none. Takes memory.
pub(crate) fn spelled_seconds(
    alloc: Global,
    floors: bool,
    format: Format,
    text: &str,
) -> Result<Option<i64>, OutOfMemory>
    ensures { IfOk result (λ o. o ≡ spelled floors format text.now) }
{
    match format {
        Format::DateTime => date_time_seconds(alloc, floors, text),
        Format::HttpDate => http_date_seconds(alloc, floors, text),
        Format::EpochSeconds => Ok(told_seconds(alloc, Format::EpochSeconds, text)),
    }
}
