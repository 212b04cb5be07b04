//! Waiting for what another thread does.

use crate::serving::terminal::Terminal;
use std::sync::atomic::{AtomicBool, Ordering};
use std::thread;
use std::time::Duration;

/// How many turns are waited at most, each of which sleeps.
pub(crate) const TURNS: u32 = 1_000;

/// Sleeps 10 milliseconds.
pub(crate) fn nap(rt: &HostRuntime) {
    thread::sleep(rt, Duration::from_millis(10));
}

/// Waits until the flag is up, for so many turns at most. Whether it is.
pub(crate) fn is_up_within(rt: &HostRuntime, flag: &AtomicBool, turns: u32) -> bool {
    for _ in 0..turns {
        if flag.load(Ordering::SeqCst) {
            return true;
        }
        nap(rt);
    }
    flag.load(Ordering::SeqCst)
}

/// Waits until so many bytes lie there to be read. Whether they do.
pub(crate) fn has_unread_in_time(host: &HostRuntime, terminal: &Terminal, count: usize) -> bool {
    for _ in 0..TURNS {
        match terminal.unread() {
            Some(there) if there >= count => return true,
            Some(_) => nap(host),
            None => return false,
        }
    }
    false
}
