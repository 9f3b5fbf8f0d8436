// The texts of points in time.
ghost use Rattle.std.specs.Prelude.{◌≡◌, ◌<◌, ◌+◌, ◌*◌, string_bytes, IfOk, IsAscii};
ghost use Rattle.std.specs.Int.{IsInRange};
ghost use Rattle.smithy_types.specs.Texts.{padded_decimal};
ghost use Rattle.smithy_types.specs.Timestamps.{date_time_text, http_date_text, weekday_name, month_name};

use crate::calendar::date_on;
use std::alloc::{AllocError, Global};
use std::str;

const SECONDS_IN_DAY: u64 = 86_400;

/// The English name of a day of the week in three letters, where day 0 is a Monday.
pub(crate) fn weekday_name(day: u32) -> &'static [u8; 3]
    ensures { result.now ≡ weekday_name day }
{
    match day % 7 {
        0 => b"Mon",
        1 => b"Tue",
        2 => b"Wed",
        3 => b"Thu",
        4 => b"Fri",
        5 => b"Sat",
        _ => b"Sun",
    }
}

/// The English name of a month in three letters, where month 1 is January.
pub(crate) fn month_name(month: u8) -> &'static [u8; 3]
    requires { IsInRange 1 12 month }
    ensures { result.now ≡ month_name month }
{
    match month {
        1 => b"Jan",
        2 => b"Feb",
        3 => b"Mar",
        4 => b"Apr",
        5 => b"May",
        6 => b"Jun",
        7 => b"Jul",
        8 => b"Aug",
        9 => b"Sep",
        10 => b"Oct",
        11 => b"Nov",
        _ => b"Dec",
    }
}

// The two digits of a number.
fn in_two_digits(number: u8) -> [u8; 2]
    requires { number < 100 }
    ensures { result ≡ padded_decimal 2 number }
{
    [b'0' + number / 10, b'0' + number % 10]
}

// The four digits of a number.
fn in_four_digits(number: u16) -> [u8; 4]
    requires { number < 10000 }
    ensures { result ≡ padded_decimal 4 number }
{
    [
        b'0' + (number / 1000) as u8,
        b'0' + (number / 100 % 10) as u8,
        b'0' + (number / 10 % 10) as u8,
        b'0' + (number % 10) as u8,
    ]
}

// The bytes of `date_time_text`.
fn date_time_bytes(seconds: u64) -> [u8; 20]
    requires { seconds < 315537897600 }
    ensures { result ≡ date_time_text seconds }
{
    let day = (seconds / SECONDS_IN_DAY) as u32;
    let second = (seconds % SECONDS_IN_DAY) as u32;
    let date = date_on(day);
    let [y0, y1, y2, y3] = in_four_digits(date.year);
    let [m0, m1] = in_two_digits(date.month);
    let [d0, d1] = in_two_digits(date.day);
    let [h0, h1] = in_two_digits((second / 3600) as u8);
    let [n0, n1] = in_two_digits((second / 60 % 60) as u8);
    let [s0, s1] = in_two_digits((second % 60) as u8);
    [
        y0, y1, y2, y3, b'-', m0, m1, b'-', d0, d1, b'T', h0, h1, b':', n0, n1, b':', s0, s1, b'Z',
    ]
}

// The bytes of `http_date_text`.
fn http_date_bytes(seconds: u64) -> [u8; 29]
    requires { seconds < 315537897600 }
    ensures { result ≡ http_date_text seconds }
{
    let day = (seconds / SECONDS_IN_DAY) as u32;
    let second = (seconds % SECONDS_IN_DAY) as u32;
    let date = date_on(day);
    let [w0, w1, w2] = *weekday_name(day);
    let [d0, d1] = in_two_digits(date.day);
    let [m0, m1, m2] = *month_name(date.month);
    let [y0, y1, y2, y3] = in_four_digits(date.year);
    let [h0, h1] = in_two_digits((second / 3600) as u8);
    let [n0, n1] = in_two_digits((second / 60 % 60) as u8);
    let [s0, s1] = in_two_digits((second % 60) as u8);
    [
        w0, w1, w2, b',', b' ', d0, d1, b' ', m0, m1, m2, b' ', y0, y1, y2, y3, b' ', h0, h1, b':',
        n0, n1, b':', s0, s1, b' ', b'G', b'M', b'T',
    ]
}

// ASCII as a text.
fn ascii_text(alloc: Global, bytes: &[u8]) -> Result<String, AllocError>
    requires { IsAscii bytes.now }
    ensures { IfOk result (λ t. string_bytes t ≡ bytes.now) }
{
    match str::from_utf8(bytes) {
        Ok(text) => String::from_str(alloc, text),
        Err(_) => unreachable!(),
    }
}

/// The text of RFC 3339 for a point in time, given in seconds since 1 January of year 1.
pub(crate) fn date_time_text(alloc: Global, seconds: u64) -> Result<String, AllocError>
    requires { seconds < 315537897600 }
    ensures { IfOk result (λ t. string_bytes t ≡ date_time_text seconds) }
{
    ascii_text(alloc, &date_time_bytes(seconds))
}

/// The text of RFC 7231, section 7.1.1.1, for a point in time, given in seconds since 1 January of year 1.
pub(crate) fn http_date_text(alloc: Global, seconds: u64) -> Result<String, AllocError>
    requires { seconds < 315537897600 }
    ensures { IfOk result (λ t. string_bytes t ≡ http_date_text seconds) }
{
    ascii_text(alloc, &http_date_bytes(seconds))
}
