//! The stamp of a clock's moment.
ghost use Rattle.std.specs.Prelude.{◌≡◌, ◌<◌, pos, ◌*ℤ◌, IfNone, IfSome};
ghost use Rattle.hd_day.specs.Days.{end_of_days};
ghost use Rattle.hd_date.specs.Clock.{IsStampAt, IsTold, first_stamp, local_second, seconds};

use crate::offset::OffsetMinutes;
use crate::stamp::Stamp18;
use hd_day::{DAYS, Day};

/// How many seconds lie between 0000-01-01 and 1970-01-01, which is the day of number 719,528.
const FIRST_SECOND: u64 = 719_528 * 86_400;

/// How many seconds the years 0000 to 9999 have.
const SECONDS: u64 = DAYS as u64 * 86_400;

impl Stamp18 {
    /// The local moment at which a clock tells that so many seconds have gone since 1970-01-01, 00:00, of
    /// universal time (before it: a number below 0). `None` where its local year lies outside 0000 to 9999.
    pub fn at(seconds: i64, offset: OffsetMinutes) -> Option<Stamp18>
        ensures stamp { IfSome result (IsStampAt seconds offset) }
        ensures none { IfNone result (¬ IsTold seconds offset) }
    {
        let total = local_second(seconds, offset)?;
        let minutes = total / 60;
        let day = Day::of_number((minutes / 1440) as u32)?;
        Some(Stamp18::new(day, (minutes % 1440) as u16, (total % 60) as u8))
    }

    /// The first moment of the year 0, printed `00000101    000000`: the present where no clock tells one.
    pub fn first() -> Stamp18
        ensures { result ≡ first_stamp }
    {
        Stamp18::new(Day::first(), 0, 0)
    }
}

/// The seconds from the first moment of the year 0 to that local moment, where its year is 0000 to 9999.
fn local_second(told: i64, offset: OffsetMinutes) -> Option<u64>
    ensures moment { IfSome result (λ total. pos total ≡ local_second told offset) }
    ensures in_years { IfSome result (λ total. total < seconds end_of_days 0 0) }
    ensures none { IfNone result (¬ IsTold told offset) }
{
    let total = i128::from(told) + i128::from(FIRST_SECOND) + i128::from(ahead(offset));
    if total < 0 || total >= i128::from(SECONDS) {
        return None;
    }
    Some(total.unsigned_abs() as u64)
}

/// How many seconds local time is later.
fn ahead(offset: OffsetMinutes) -> i32
    ensures { result ≡ offset *ℤ pos 60 }
{
    i32::from(offset.minutes()) * 60
}
