// The days of the years 1 to 9999, counted from 1 January of year 1.
ghost use Rattle.std.specs.Prelude.{◌≡◌, ◌≤◌};
ghost use Rattle.std.specs.Int.{IsInRange};
ghost use Rattle.smithy_types.specs.Calendar.{date_of};

use jiff_core::civil::Date;

/// How many days lie between 1 January of the year -9999 and that of year 1.
const BEFORE_YEAR_ONE: u32 = 3_652_425;

/// A date of the years 1 to 9999.
#[derive(Clone, Copy)]
pub(crate) struct CalendarDate {
    pub year: u16,
    pub month: u8,
    pub day: u8,
}

/// The date with this many days between 1 January of year 1 and it.
pub(crate) fn date_on(day: u32) -> CalendarDate
    requires { day ≤ 3652058 }
    ensures real { IsInRange 1 12 result.month }
    ensures year_bound { result.year ≤ 9999 }
    ensures day_bound { result.day ≤ 31 }
    ensures year { result.year ≡ (date_of day).year }
    ensures month { result.month ≡ (date_of day).month }
    ensures day { result.day ≡ (date_of day).day }
{
    let date = Date::from_days_since_min(BEFORE_YEAR_ONE + day);
    CalendarDate {
        year: date.year as u16,
        month: date.month,
        day: date.day,
    }
}
