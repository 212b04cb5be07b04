//! The offset of a zone, by its file.
ghost use Rattle.std.specs.Prelude.{IfOk};
ghost use Rattle.hd_library.specs.Moments.{IsOffsetThen};
ghost use Rattle.hd_zone.specs.Zones.{IsOffsetAt};

use crate::fault::SetupFault;
use hd_catalogue::OffsetMinutes;
use hd_zone::{ZoneFault, offset_at};
use std::alloc::{AllocError, Global};
use std::time::{Clock, Duration};
use std::{fs, io};

/// The offset that the zone whose file is at a path has now, by the system's clock.
///
/// # Errors
/// `CannotReadZone`, with the path and why: the file or the clock can't be read, or the file has no such
/// offset. `Memory`.
pub fn offset_now<R: Clock>(
    rt: &R,
    host: &HostRuntime,
    path: &str,
) -> Result<OffsetMinutes, SetupFault> {
    let alloc = host.alloc();
    let file = match fs::read(host, path) {
        Ok(file) => file,
        Err(error) => return Err(unread(path, format!(in alloc; "{error}"), alloc)),
    };
    offset_by(alloc, path, file.as_slice(), &|| rt.since_1970())
}

/// The offset that a zone's file has at the moment that a clock tells, which is asked now.
///
/// # Errors
/// The clock can't be read, or the file has none: its path and why.
fn offset_by<C: Fn() -> io::Result<Duration>>(
    alloc: Global,
    path: &str,
    file: &[u8],
    clock: &C,
) -> Result<OffsetMinutes, SetupFault>
    requires { C.IsAlwaysCallable clock.now }
    // the clock was asked, and may have told this
    ensures { (told : _) × C.post clock.now told × IfOk result (IsOffsetThen file.now told) }
{
    match clock() {
        Ok(since) => offset_told(alloc, path, file, since.as_secs()),
        Err(error) => Err(unread(path, format!(in alloc; "{error}"), alloc)),
    }
}

/// The offset that a zone's file has, where so many seconds have gone since 1970.
///
/// # Errors
/// It has none, with its path and why.
fn offset_told(
    alloc: Global,
    path: &str,
    file: &[u8],
    told: u64,
) -> Result<OffsetMinutes, SetupFault>
    ensures { IfOk result (IsOffsetAt file.now told) }
{
    match offset_at(alloc, file, told) {
        Ok(offset) => Ok(offset),
        Err(ZoneFault::Memory) => Err(SetupFault::Memory),
        Err(fault) => Err(unread(path, format!(in alloc; "{fault}"), alloc)),
    }
}

/// That a zone's file has no offset, and why.
fn unread(path: &str, why: Result<String, AllocError>, alloc: Global) -> SetupFault {
    let Ok(why) = why else {
        return SetupFault::Memory;
    };
    match format!(in alloc; "{path}: {why}") {
        Ok(said) => SetupFault::CannotReadZone(said),
        Err(_) => SetupFault::Memory,
    }
}
