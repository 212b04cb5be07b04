//! How long commits take.
ghost use Rattle.std.specs.Prelude.{◌≡◌, ◌/◌, IfSome};
ghost use Rattle.std.specs.Duration.{as_nanos};

use crate::table::TurnTable;
use hd_journal::{TurnRef, WriteFault};
use std::io;
use std::sync::{Mutex, Wait};
use std::time::{Clock, Duration, Instant};

/// How long the last turn that was committed took to be written.
#[derive(Drop)]
pub struct LastCommit {
    micros: Mutex<Option<u64>>,
}

impl LastCommit {
    /// None was committed yet.
    pub fn new() -> LastCommit {
        LastCommit {
            micros: Mutex::new(None),
        }
    }

    /// How long it took, in microseconds; nothing where none was committed, or the clock couldn't be read.
    pub fn micros<R: Wait>(&self, rt: &R) -> Option<u64> {
        *self.micros.lock(rt)
    }

    /// Notes how long it took.
    fn note<R: Wait>(&self, rt: &R, micros: Option<u64>) {
        *self.micros.lock(rt) = micros;
    }
}

/// A table of turns that is another one in all that is said of tables, and notes how long each commit takes.
#[derive(Drop)]
pub struct TimedTable<'a, R, T> {
    rt: &'a R,
    last: &'a LastCommit,
    table: T,
}

impl<'a, R, T> TimedTable<'a, R, T> {
    /// That is the other one, whose commits are timed by this clock.
    pub(crate) fn new(rt: &'a R, last: &'a LastCommit, table: T) -> TimedTable<'a, R, T>
        ensures { result.table ≡ table }
    {
        TimedTable { rt, last, table }
    }

    /// The other table.
    pub fn into_table(self) -> T
        ensures { result ≡ self.entry.table }
    {
        let TimedTable {
            rt: _rt,
            last: _last,
            table,
        } = self;
        table
    }
}

impl<'a, R: Wait + Clock, T: TurnTable> TurnTable for TimedTable<'a, R, T> {
    ghost contents = { λ timed. T.contents timed.table };

    ghost holds = { λ timed. T.holds timed.table };

    ghost leaves = { λ timed. T.leaves timed.table };

    ghost refuses = { λ old turn new. T.refuses old.table turn new.table };

    fn commit(&mut self, turn: &TurnRef<'_>) -> Result<(), WriteFault> {
        let begin = Instant::now(self.rt);
        let committed = self.table.commit(turn);
        if committed.is_ok() {
            self.last.note(self.rt, micros_since(self.rt, begin));
        }
        committed
    }
}

/// How many whole microseconds have gone since a moment, where the clock can be read.
fn micros_since<R: Clock>(rt: &R, begin: io::Result<Instant>) -> Option<u64> {
    match begin {
        Ok(begin) => match begin.elapsed(rt) {
            Ok(gone) => micros_of(gone),
            Err(_) => None,
        },
        Err(_) => None,
    }
}

/// The whole microseconds of a time, where a number of 64 bits has room for them.
fn micros_of(gone: Duration) -> Option<u64>
    ensures { IfSome result (λ micros. micros ≡ as_nanos gone / 1_000) }
{
    u64::try_from(gone.as_micros()).ok()
}
