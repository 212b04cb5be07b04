//! The progress that is reported while a journal's turns are taken again.

use crate::fault::LibraryJournalFault;
use hd_journal_file::Progress;
use std::io::{self, IsTerminal};
use std::time::{Duration, Instant};

/// How often progress is reported on a terminal, in milliseconds.
const ON_TERMINAL: u64 = 200;

/// How often it is reported elsewhere, in seconds.
const ELSEWHERE: u64 = 10;

/// Reports on standard error how many turns of a journal are taken again so far: on a terminal in one line,
/// which is written over, and elsewhere in a line each ten seconds.
#[derive(Drop)]
pub(crate) struct Retaking<'r> {
    rt: &'r HostRuntime,
    is_terminal: bool,
    /// When progress was reported last, or the turns were begun.
    last: Instant,
}

impl<'r> Retaking<'r> {
    /// Reports on a terminal that it begins.
    ///
    /// # Errors
    /// Standard error can't be written, or there is no clock.
    pub(crate) fn begin(rt: &'r HostRuntime) -> Result<Retaking<'r>, LibraryJournalFault> {
        let is_terminal = rt.stderr().is_terminal();
        if is_terminal {
            eprint!(rt; "taking the journal's turns again")?;
        }
        let Ok(last) = Instant::now(rt) else {
            return Err(LibraryJournalFault::NoClock);
        };
        Ok(Retaking {
            rt,
            is_terminal,
            last,
        })
    }

    /// Ends the line of a terminal.
    ///
    /// # Errors
    /// Standard error can't be written.
    pub(crate) fn end(self) -> io::Result<()> {
        if self.is_terminal {
            eprintln!(self.rt)?;
        }
        Ok(())
    }

    /// Reports how many turns are taken again so far.
    fn tell(&self, turns: u32) -> io::Result<()> {
        if self.is_terminal {
            eprint!(self.rt; "\rtaking the journal's turns again: {turns}")
        } else {
            eprintln!(self.rt; "taking the journal's turns again: {turns} so far")
        }
    }

    /// How long nothing is reported again.
    fn pause(&self) -> Duration {
        if self.is_terminal {
            Duration::from_millis(ON_TERMINAL)
        } else {
            Duration::from_secs(ELSEWHERE)
        }
    }
}

/// If it can't be reported, the turns are taken again all the same.
impl Progress for Retaking<'_> {
    fn taken(&mut self, turns: u32) {
        let Ok(now) = Instant::now(self.rt) else {
            return;
        };
        if now.duration_since(self.last) >= self.pause() {
            self.last = now;
            let _ = self.tell(turns);
        }
    }
}
