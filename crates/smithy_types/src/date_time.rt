// Points in time, and their texts.
use crate::date_reader::{read_date_time, read_epoch_seconds, read_http_date};
use crate::date_text::{date_time_text, http_date_text};
use crate::error::TypesError;
use crate::text::Text;
use std::alloc::Global;
use std::marker::Model;

/// How a point in time is written (Smithy, timestampFormat trait).
#[derive(Clone, Copy, PartialEq, Eq)]
pub enum Format {
    EpochSeconds,
    DateTime,
    HttpDate,
}

/// A point in time, seen as its whole seconds since 1 January 1970, negative before it.
#[derive(Clone, Copy, Debug, PartialEq, Eq)]
pub struct DateTime {
    seconds: i64,
}

impl Model for DateTime {
    ghost use Rattle.std.specs.Prelude.{ℤ};

    ghost Value = { ℤ };

    ghost view = { λ a. a.seconds };

    ghost inverse = { λ z. record { seconds = z } };
}

impl DateTime {
    ghost use Rattle.std.specs.Prelude.{◌≡◌, ◌<◌, ◌⊎◌, ◌↔◌, IfOk, IfErr, IfSome, IsErrOf};
    ghost use Rattle.smithy_types.specs.Timestamps.{timestamp_text, since_year_one};
    ghost use Rattle.smithy_types.specs.TimestampReading.{timestamp_of};
    ghost use Rattle.std.specs.Option.{ok_or};

    /// The seconds of the last second of the year 9999.
    const LAST: i64 = 253_402_300_799;

    /// The seconds since 1970 of the first second of year 1.
    const FIRST: i64 = -62_135_596_800;

    /// The point in time with these seconds since 1970.
    pub fn from_secs(secs: i64) -> DateTime
        ensures { result ≡ secs }
    {
        DateTime { seconds: secs }
    }

    /// The seconds since 1970.
    pub fn secs(&self) -> i64
        ensures { result ≡ self.now }
    {
        self.seconds
    }

    /// The text in a format: a number of seconds, a date-time of RFC 3339 or a date of RFC 7231, section 7.1.1.1.
    ///
    /// Refuses with `DateRange` where the format has a calendar and the year is not 1 to 9999. Takes memory.
    pub fn fmt(&self, alloc: Global, format: Format) -> Result<Text, TypesError>
        ensures text { IfOk result (λ t. timestamp_text format self.now ≡ Some t) }
        ensures range { IsErrOf result TypesError.DateRange ↔ (timestamp_text format self.now ≡ None) }
        ensures refusals { IfErr result (λ e. (e ≡ TypesError.DateRange) ⊎ (e ≡ TypesError.OutOfMemory)) }
    {
        match format {
            Format::EpochSeconds => {
                let seconds = self.seconds;
                Ok(Text::from_string(format!(in alloc; "{seconds}")?))
            }
            Format::DateTime => {
                let since = self.since_year_one().ok_or(TypesError::DateRange)?;
                Ok(Text::from_string(date_time_text(alloc, since)?))
            }
            Format::HttpDate => {
                let since = self.since_year_one().ok_or(TypesError::DateRange)?;
                Ok(Text::from_string(http_date_text(alloc, since)?))
            }
        }
    }

    /// The point in time that a text of the format tells: an optional `-` and digits within 64 bits, a date-time of RFC 3339 with the
    /// zone `Z`, or a date of RFC 7231, section 7.1.1.1, in its preferred form. The calendar forms may have a point and zeros behind the
    /// seconds. They have years 0001 to 9999, dates that there are, hours to 23, minutes and seconds to 59, and any day's name.
    ///
    /// Refuses with `Malformed` where the text is not of the format. Takes no memory.
    pub fn parse(_alloc: Global, text: &str, format: Format) -> Result<DateTime, TypesError>
        ensures { result ≡ ok_or (timestamp_of format text.now) TypesError.Malformed }
    {
        let bytes = text.as_bytes();
        let seconds = match format {
            Format::EpochSeconds => read_epoch_seconds(text),
            Format::DateTime => read_date_time(bytes),
            Format::HttpDate => read_http_date(bytes),
        };
        match seconds {
            Some(seconds) => Ok(DateTime { seconds }),
            None => Err(TypesError::Malformed),
        }
    }

    /// The seconds since 1 January of year 1, for the years 1 to 9999.
    fn since_year_one(&self) -> Option<u64>
        ensures value { result ≡ since_year_one self.now }
        ensures bound { IfSome result (λ since. since < 315537897600) }
    {
        if self.seconds < Self::FIRST || self.seconds > Self::LAST {
            return None;
        }
        Some((self.seconds - Self::FIRST) as u64)
    }
}
