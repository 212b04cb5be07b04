//! Printing days and stamps.
ghost use Rattle.std.specs.Prelude.{◌≡◌, ◌+◌, ◌/◌, ◌%◌, ◌<◌, ◌≤◌, ◌++◌, codes};
ghost use Rattle.hd_date.specs.Days.{IsPrinted, date_text, two_digits};
ghost use Rattle.hd_date.specs.Stamps.{IsMoment, Prints};

use crate::calendar::date_of;
use crate::stamp::Stamp18;
use hd_day::Day;

impl Stamp18 {
    /// The stamp as it is printed, in local time: `YYYYMMDD    HHMMSS`.
    pub fn print(&self) -> [u8; 18]
        ensures text { Prints self.now result }
        ensures in_range { IsMoment self.now }
    {
        let (year, month, day) = date_of(self.day());
        let minute = self.minute();
        text(
            year,
            month,
            day,
            (minute / 60) as u8,
            (minute % 60) as u8,
            self.second(),
        )
    }
}

/// The day as it is printed where something is due on it or ends with it: `YYYYMMDD    235900`.
pub fn print_due(day: Day) -> [u8; 18]
    ensures { IsPrinted day (codes "235900") result }
{
    let (year, month, day) = date_of(day);
    text(year, month, day, 23, 59, 0)
}

/// The text of a date with a time.
fn text(year: u16, month: u8, day: u8, hour: u8, minute: u8, second: u8) -> [u8; 18]
    requires year { year < 10000 }
    requires month { month < 100 }
    requires day { day < 100 }
    requires hour { hour < 100 }
    requires minute { minute < 100 }
    requires second { second < 100 }
    ensures { result ≡ date_text year month day (two_digits hour ++ two_digits minute ++ two_digits second) }
{
    let zone = *b"    ";
    [
        digit(year / 1000),
        digit(year / 100 % 10),
        digit(year / 10 % 10),
        digit(year % 10),
        b'0' + month / 10,
        b'0' + month % 10,
        b'0' + day / 10,
        b'0' + day % 10,
        zone[0],
        zone[1],
        zone[2],
        zone[3],
        b'0' + hour / 10,
        b'0' + hour % 10,
        b'0' + minute / 10,
        b'0' + minute % 10,
        b'0' + second / 10,
        b'0' + second % 10,
    ]
}

/// The byte of a digit.
fn digit(value: u16) -> u8
    requires { value < 10 }
    ensures { result ≡ 48 + value }
{
    b'0' + value as u8
}
