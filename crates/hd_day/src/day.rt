//! Days by number.
ghost use Rattle.std.specs.Prelude.{◌≡◌, ℕ, ◌+◌, ◌<◌};
ghost use Rattle.std.specs.Option.{SomeIff};
ghost use Rattle.hd_day.specs.Days.{end_of_days};

use std::marker::Model;

/// How many days the years 0000 to 9999 have.
pub const DAYS: u32 = 3_652_425;

/// A day from 0000-01-01 to 9999-12-31, by the number of days since the first of these.
///
/// The calendar is the Gregorian one, and the year 0 is a leap year (docs/protocol.md).
#[derive(Clone, Copy, Debug, PartialEq, Eq, PartialOrd, Ord, Hash)]
pub struct Day {
    number: u32,
}

impl Model for Day {
    ghost Value = { ℕ };

    ghost view = { λ day. day.number };

    ghost invariant = { λ day. day.number < end_of_days };

    ghost inverse = { λ number. record { number = number } };
}

impl Day {
    /// 0000-01-01, the first day.
    pub fn first() -> Day
        ensures { result ≡ 0 }
    {
        Day { number: 0 }
    }

    /// The day that many days after 0000-01-01, or `None` where that lies after 9999-12-31.
    pub fn of_number(number: u32) -> Option<Day>
        ensures { SomeIff result (number < end_of_days) number }
    {
        if number < DAYS {
            Some(Day { number })
        } else {
            None
        }
    }

    /// How many days lie between 0000-01-01 and this day.
    pub fn number(self) -> u32
        ensures value { result ≡ self }
        ensures in_range { result < end_of_days }
    {
        self.number
    }

    /// The day that many days later, or `None` where that lies after 9999-12-31.
    pub fn add_days(self, count: u32) -> Option<Day>
        ensures { SomeIff result (self + count < end_of_days) (self + count) }
    {
        Day::of_number(self.number.checked_add(count)?)
    }
}
