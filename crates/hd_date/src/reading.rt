//! Reading stamps.
ghost use Rattle.std.specs.Prelude.{◌≡◌, ◌<◌, IfErr, IfNone, IfOk, IfSome};
ghost use Rattle.std.specs.Option.{SomeIff};
ghost use Rattle.hd_date.specs.Days.{IsCalendarDay};
ghost use Rattle.hd_date.specs.Faults.{IsFirstFault};
ghost use Rattle.hd_date.specs.Stamps.{HasDigits, IsDate, IsInLocalForm, IsOwnPrint, IsStamp, IsTime};
ghost use Rattle.hd_date.specs.Stamps.{minute_of_day, shift, numbers_in, zone_of};

use crate::calendar::day_of;
use crate::digits::{four, two};
use crate::fault::DateFault;
use crate::local::minutes_later;
use crate::numbers::Numbers;
use crate::offset::OffsetMinutes;
use crate::stamp::Stamp18;
use crate::zone::Zone;
use hd_day::Day;

/// The stamp that a text shows, in local time, or the text's first fault.
///
/// A text is `YYYYMMDDZZZZHHMMSS` (SIP2 2.00, date fields). Where `ZZZZ` is four blanks it is
/// local time; where it is `   Z` it is universal time and is made local by adding the offset. Other
/// zones, days that the Gregorian calendar hasn't, and moments whose local year lies outside
/// 0000 to 9999 are refused (docs/protocol.md, "Dates").
pub fn read(text: &[u8], offset: OffsetMinutes) -> Result<Stamp18, DateFault>
    ensures stamp { IfOk result (λ stamp. IsStamp text.now offset stamp) }
    ensures fault { IfErr result (λ fault. IsFirstFault text.now offset fault) }
{
    let Ok(text) = <&[u8; 18]>::try_from(text) else {
        return Err(DateFault::Length);
    };
    let Some(numbers) = numbers(text) else {
        return Err(DateFault::Digits);
    };
    let Some(zone) = zone(text) else {
        return Err(DateFault::Zone);
    };
    let Some((day, minute)) = day_and_minute(numbers) else {
        return Err(DateFault::Calendar);
    };
    let Some((day, minute)) = minutes_later(day, minute, later(zone, offset)) else {
        return Err(DateFault::Range);
    };
    Ok(Stamp18::new(day, minute, numbers.second))
}

/// The text itself where it is in local form: 18 bytes, with four blanks for the zone.
///
/// Where such a text shows a stamp, it is what is printed of the stamp (docs/protocol.md, "Dates").
pub fn local_text(text: &[u8]) -> Option<&[u8; 18]>
    ensures same { IfSome result (λ local. local.now ≡ text.now) }
    ensures printed { IfSome result (λ local. IsOwnPrint local.now) }
    ensures none { IfNone result (¬ IsInLocalForm text.now) }
{
    let Ok(text) = <&[u8; 18]>::try_from(text) else {
        return None;
    };
    match zone(text) {
        Some(Zone::Local) => Some(text),
        _ => None,
    }
}

/// The numbers of a text, if all but its zone are digits.
fn numbers(text: &[u8; 18]) -> Option<Numbers>
    ensures value { IfSome result (λ numbers. numbers ≡ numbers_in text.now) }
    ensures digits { IfSome result (λ numbers. HasDigits text.now) }
    ensures year { IfSome result (λ numbers. numbers.year < 10000) }
    ensures month { IfSome result (λ numbers. numbers.month < 100) }
    ensures day { IfSome result (λ numbers. numbers.day < 100) }
    ensures none { IfNone result (¬ HasDigits text.now) }
{
    Some(Numbers {
        year: four(&text[0..4])?,
        month: two(&text[4..6])?,
        day: two(&text[6..8])?,
        hour: two(&text[12..14])?,
        minute: two(&text[14..16])?,
        second: two(&text[16..18])?,
    })
}

/// The zone of a text.
fn zone(text: &[u8; 18]) -> Option<Zone>
    ensures { result ≡ zone_of text.now }
{
    match &text[8..12] {
        b"    " => Some(Zone::Local),
        b"   Z" => Some(Zone::Universal),
        _ => None,
    }
}

/// The day and the minute of the day, if the calendar has the day and the day has the time.
fn day_and_minute(numbers: Numbers) -> Option<(Day, u16)>
    requires year { numbers.year < 10000 }
    requires month { numbers.month < 100 }
    requires day { numbers.day < 100 }
    ensures shows { IfSome result (λ stated. IsCalendarDay numbers.year numbers.month numbers.day stated.0) }
    ensures time { IfSome result (λ stated. IsTime numbers) }
    ensures minute { IfSome result (λ stated. stated.1 ≡ minute_of_day numbers) }
    ensures none { IfNone result (¬ (IsDate numbers × IsTime numbers)) }
{
    let day = day_of(numbers.year, numbers.month, numbers.day)?;
    let minute = minute_of(numbers)?;
    Some((day, minute))
}

/// The minute of the day, if the numbers are a time of day.
fn minute_of(numbers: Numbers) -> Option<u16>
    ensures { SomeIff result (IsTime numbers) (minute_of_day numbers) }
{
    if numbers.hour > 23 || numbers.minute > 59 || numbers.second > 59 {
        return None;
    }
    Some(u16::from(numbers.hour) * 60 + u16::from(numbers.minute))
}

/// How many minutes local time is later than a zone's.
fn later(zone: Zone, offset: OffsetMinutes) -> i16
    ensures { result ≡ shift zone offset }
{
    match zone {
        Zone::Local => 0,
        Zone::Universal => offset.minutes(),
    }
}
