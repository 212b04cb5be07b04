//! Moments by which something has to be done.
ghost use Rattle.std.specs.Prelude.{◌≡◌, ◌+◌, ◌<◌, ◌≤◌, IfNone, IfOk, IfSome};
ghost use Rattle.std.specs.Duration.{as_nanos};

use std::io::{self, ErrorKind};
use std::time::{Clock, Duration, Instant};

/// A moment by which something has to be done.
#[derive(Clone, Copy, Debug)]
pub(crate) struct Deadline {
    start: Instant,
    within: Duration,
}

impl Deadline {
    /// So long from now.
    ///
    /// # Errors
    /// Where the clock can't be read.
    pub(crate) fn after<R: Clock>(rt: &R, within: Duration) -> io::Result<Deadline>
        ensures { IfOk result (λ deadline. deadline.within ≡ within) }
    {
        let start = Instant::now(rt)?;
        Ok(Deadline { start, within })
    }

    /// How long it is till then.
    ///
    /// # Errors
    /// `TimedOut` where the moment has come, and where the clock can't be read.
    pub(crate) fn left<R: Clock>(&self, rt: &R) -> io::Result<Duration>
        ensures { IfOk result (λ left. (0 < as_nanos left) × (as_nanos left ≤ as_nanos self.now.within)) }
    {
        let spent = self.start.elapsed(rt)?;
        match rest(self.within, spent) {
            Some(left) => Ok(left),
            None => Err(io::Error::from(ErrorKind::TimedOut)),
        }
    }
}

/// What of a time is left when so much of it is spent, if anything.
fn rest(within: Duration, spent: Duration) -> Option<Duration>
    ensures some { IfSome result (λ left. (0 < as_nanos left)
        × (as_nanos left + as_nanos spent ≡ as_nanos within)) }
    ensures none { IfNone result (as_nanos within ≤ as_nanos spent) }
{
    let left = within.checked_sub(spent)?;
    if left.is_zero() { None } else { Some(left) }
}
