//! Local time.
ghost use Rattle.std.specs.Prelude.{◌≡◌, ◌<◌, pos, ◌+ℤ◌, IfNone, IfSome};
ghost use Rattle.hd_day.specs.Days.{end_of_days};
ghost use Rattle.hd_date.specs.Stamps.{IsInYears, minutes};

use hd_day::{DAYS, Day};

/// The minutes of a day.
const MINUTES_OF_A_DAY: u16 = 1440;

/// The day and the minute of the day that lie `offset` minutes later, if the years 0000 to 9999 have it.
pub(crate) fn minutes_later(day: Day, minute: u16, offset: i16) -> Option<(Day, u16)>
    requires minute { minute < 1440 }
    ensures value { IfSome result
        (λ moved. pos (minutes moved.0 moved.1) ≡ pos (minutes day minute) +ℤ offset) }
    ensures day { IfSome result (λ moved. moved.0 < end_of_days) }
    ensures minute { IfSome result (λ moved. moved.1 < 1440) }
    ensures none { IfNone result (¬ IsInYears (pos (minutes day minute) +ℤ offset)) }
{
    let day_length = i64::from(MINUTES_OF_A_DAY);
    let total = i64::from(day.number()) * day_length + i64::from(minute) + i64::from(offset);
    if total < 0 || total >= i64::from(DAYS) * day_length {
        return None;
    }
    let total = total.unsigned_abs();
    let day_length = u64::from(MINUTES_OF_A_DAY);
    let day = Day::of_number((total / day_length) as u32)?;
    Some((day, (total % day_length) as u16))
}
