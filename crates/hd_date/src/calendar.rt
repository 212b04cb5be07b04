//! Days on the calendar.
ghost use Rattle.std.specs.Prelude.{◌<◌, pos, IfNone, IfSome};
ghost use Rattle.hd_day.specs.Days.{end_of_days};
ghost use Rattle.hd_date.specs.Days.{IsCalendarDay};
ghost use Rattle.jiff_core.specs.Calendar.{IsCivilDate};

use hd_day::Day;
use jiff_core::civil::Date;

/// How many days lie between the first day of `jiff` and 0000-01-01.
const DAYS_BEFORE: u32 = 3_652_059;

/// The day of a year, month and day of the month, if the calendar has it.
pub(crate) fn day_of(year: u16, month: u8, day: u8) -> Option<Day>
    requires year { year < 10000 }
    requires month { month < 100 }
    requires day { day < 100 }
    ensures found { IfSome result (IsCalendarDay year month day) }
    ensures none { IfNone result (¬ IsCivilDate (pos year) month day) }
{
    match Date::new(year as i16, month as i8, day as i8) {
        Ok(date) => Day::of_number(date.days_since_min() - DAYS_BEFORE),
        Err(_) => None,
    }
}

/// The year, month and day of the month of a day.
pub(crate) fn date_of(day: Day) -> (u16, u8, u8)
    ensures shows { IsCalendarDay result.0 result.1 result.2 day }
    ensures in_range { day < end_of_days }
{
    let date = Date::from_days_since_min(day.number() + DAYS_BEFORE);
    (date.year.unsigned_abs(), date.month, date.day)
}
