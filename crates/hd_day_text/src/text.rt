//! The texts of days.
ghost use Rattle.std.specs.Prelude.{◌≡◌, ℕ, IfNone, IfSome, length, slice_index};
ghost use Rattle.hd_day_text.specs.Days.{IsDayText, midnight_text};

use hd_date::{Day, OffsetMinutes, print_due, prints_show_their_stamp, read, texts_show_one_stamp};

/// The text of a day: year, month and day of the month, as in `2026-11-25` (ISO 8601).
pub fn day_text(day: Day) -> [u8; 10]
    ensures { IsDayText day result }
{
    let text = print_due(day);
    [
        text[0], text[1], text[2], text[3], b'-', text[4], text[5], b'-', text[6], text[7],
    ]
}

/// The day of a text, or `None` where it is that of no day.
pub fn day_said(text: &[u8]) -> Option<Day>
    ensures said { IfSome result (λ day. IsDayText day text.now) }
    ensures none { IfNone result ((day : ℕ) → ¬ IsDayText day text.now) }
{
    if text.len() != 10 {
        return None;
    }
    if text[4] != b'-' || text[7] != b'-' {
        return None;
    }
    day_of(text)
}

/// The day of a text of ten bytes with its dashes, or `None` where it is that of no day.
fn day_of(text: &[u8]) -> Option<Day>
    requires size { length text.now ≡ 10 }
    requires first { slice_index text.now 4 ≡ 45 }
    requires second { slice_index text.now 7 ≡ 45 }
    ensures said { IfSome result (λ day. IsDayText day text.now) }
    ensures none { IfNone result ((day : ℕ) → ¬ IsDayText day text.now) }
{
    prints_show_their_stamp();
    texts_show_one_stamp();
    let moment = midnight(text);
    let offset = OffsetMinutes::new(0).unwrap();
    match read(&moment, offset) {
        Ok(stamp) => Some(stamp.day()),
        Err(_) => None,
    }
}

/// The first moment of the day of a text, in local time, as stamps are written.
fn midnight(text: &[u8]) -> [u8; 18]
    requires { length text.now ≡ 10 }
    ensures { result ≡ midnight_text text.now }
{
    let rest = *b"    000000";
    [
        text[0], text[1], text[2], text[3], text[5], text[6], text[8], text[9], rest[0], rest[1],
        rest[2], rest[3], rest[4], rest[5], rest[6], rest[7], rest[8], rest[9],
    ]
}
