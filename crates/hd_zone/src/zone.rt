//! The offset of a zone.
ghost use Rattle.std.specs.Prelude.{◌≡◌, pos, ◌*ℤ◌, IfErr, IfNone, IfOk, IfSome};
ghost use Rattle.jiff_core.specs.Timestamp.{IsTimestampNanos, nanos_of_seconds};
ghost use Rattle.hd_zone.specs.Zones.{IsFaultAt, IsFormFault, IsOffsetAt, IsWhole, IsZoneOf};

use crate::fault::ZoneFault;
use hd_date::OffsetMinutes;
use jiff_core::{Error, Offset, Timestamp};
use jiff_tz::Tzif;
use std::alloc::Global;

/// By how many minutes local time is later than universal time in the zone of a TZif file, `seconds` seconds
/// after 1970-01-01, 00:00, of universal time.
///
/// # Errors
/// Why the file has no such offset.
pub fn offset_at(alloc: Global, file: &[u8], seconds: u64) -> Result<OffsetMinutes, ZoneFault>
    ensures offset { IfOk result (IsOffsetAt file.now seconds) }
    ensures fault { IfErr result (IsFaultAt file.now seconds) }
{
    let zone = zone_of(alloc, file)?;
    let Some(moment) = moment_at(seconds) else {
        return Err(ZoneFault::Moment);
    };
    match minutes_of(zone.to_offset(moment)) {
        Some(offset) => Ok(offset),
        None => Err(ZoneFault::Minutes),
    }
}

/// The zone of a file.
fn zone_of(alloc: Global, file: &[u8]) -> Result<Tzif, ZoneFault>
    ensures zone { IfOk result (IsZoneOf file.now) }
    ensures fault { IfErr result (IsFormFault file.now) }
{
    match Tzif::parse(alloc, None, file) {
        Ok(zone) => Ok(zone),
        Err(Error::Tzif(fault)) => Err(ZoneFault::Form(fault)),
        Err(_) => Err(ZoneFault::Memory),
    }
}

/// The moment `seconds` seconds after 1970-01-01, 00:00, of universal time, where a timestamp can hold it.
fn moment_at(seconds: u64) -> Option<Timestamp>
    ensures moment { IfSome result (λ moment. moment.nanosecond ≡ nanos_of_seconds (pos seconds)) }
    ensures none { IfNone result (¬ IsTimestampNanos (nanos_of_seconds (pos seconds))) }
{
    Timestamp::from_nanosecond(i128::from(seconds) * 1_000_000_000).ok()
}

/// An offset in minutes, where it is a whole number of these, and less than a day.
fn minutes_of(offset: Offset) -> Option<OffsetMinutes>
    ensures minutes { IfSome result (λ minutes. minutes *ℤ pos 60 ≡ offset.seconds) }
    ensures none { IfNone result (¬ IsWhole offset.seconds) }
{
    let minutes = offset.seconds / 60;
    if minutes * 60 != offset.seconds {
        return None;
    }
    OffsetMinutes::new(i16::try_from(minutes).ok()?)
}
