//! The present.
ghost use Rattle.std.specs.Prelude.{◌≡◌, pos, IfNone, IfSome};
ghost use Rattle.hd_date.specs.Clock.{IsPresent, IsStampAt, IsTold};
ghost use Rattle.hd_serve.specs.Told.{seconds_told};

use hd_date::{OffsetMinutes, Stamp18};
use std::io;
use std::time::Duration;

/// The present in local time by a clock that is read now, and `00000101    000000` where it can't be read.
pub(crate) fn present<C: Fn() -> io::Result<Duration>>(clock: &C, offset: OffsetMinutes) -> Stamp18
    requires { C.IsAlwaysCallable clock.now }
    // what the clock gave when it was read
    ensures { (told : _) × C.post clock.now told × IsPresent (seconds_told told) offset result }
{
    stamp_of(seconds_of(clock()), offset)
}

/// The whole seconds that a clock gave, if it could be read.
fn seconds_of(told: io::Result<Duration>) -> Option<u64>
    ensures { result ≡ seconds_told told }
{
    match told {
        Ok(since) => Some(since.as_secs()),
        Err(_) => None,
    }
}

/// The present where a clock gave these seconds since 1970-01-01, 00:00, of universal time.
fn stamp_of(told: Option<u64>, offset: OffsetMinutes) -> Stamp18
    ensures { IsPresent told offset result }
{
    match told {
        Some(seconds) => match moment(seconds, offset) {
            Some(stamp) => stamp,
            None => Stamp18::first(),
        },
        None => Stamp18::first(),
    }
}

/// The stamp that many seconds after it, where its year is 0000 to 9999.
fn moment(seconds: u64, offset: OffsetMinutes) -> Option<Stamp18>
    ensures stamp { IfSome result (IsStampAt (pos seconds) offset) }
    ensures none { IfNone result (¬ IsTold (pos seconds) offset) }
{
    Stamp18::at(i64::try_from(seconds).ok()?, offset)
}
