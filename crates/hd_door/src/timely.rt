//! A connection on which nothing waits past a moment.
ghost use Rattle.std.specs.Prelude.{◌≡◌, ⊤};

use crate::connection::Connection;
use crate::deadline::Deadline;
use hd_connection::{Input, Output, ReadFailed, WriteFailed, read_patiently, write_patiently};
use std::io::{self, Read, Write};
use std::time::{Clock, Duration};

/// A connection on which no read and no write waits past a moment, so long behind the first of them; all of
/// them fail behind it.
#[derive(Drop)]
pub(crate) struct Timely<'a, R, C> {
    pub(crate) rt: &'a R,
    /// How long behind the first call the moment is.
    pub(crate) within: Duration,
    /// The moment, since the first call.
    pub(crate) deadline: Option<Deadline>,
    pub(crate) connection: C,
}

impl<'a, R: Clock, C: Connection> Timely<'a, R, C> {
    /// Has the next call wait till the moment at most.
    ///
    /// # Errors
    /// Where the moment has come, the clock can't be read or the system refuses.
    fn limit(&mut self) -> io::Result<()>
        ensures { self.new.connection ≡ self.old.connection }
    {
        let deadline = match self.deadline {
            Some(deadline) => deadline,
            None => Deadline::after(self.rt, self.within)?,
        };
        self.deadline = Some(deadline);
        self.connection.limit(deadline.left(self.rt)?)
    }
}

impl<'a, R: Clock, C: Connection> Read for Timely<'a, R, C> {
    ghost remaining = { λ from. C.remaining from.connection };

    fn read(&mut self, piece: &mut [u8]) -> io::Result<usize> {
        self.limit()?;
        self.connection.read(piece)
    }
}

impl<'a, R: Clock, C: Connection> Input for Timely<'a, R, C> {
    ghost fails = { λ from. ⊤ };

    fn read_some(&mut self, piece: &mut [u8]) -> Result<usize, ReadFailed> {
        match self.limit() {
            Ok(()) => read_patiently(&mut self.connection, piece),
            Err(_) => Err(ReadFailed),
        }
    }
}

impl<'a, R: Clock, C: Connection> Write for Timely<'a, R, C> {
    ghost contents = { λ to. C.contents to.connection };

    fn write(&mut self, bytes: &[u8]) -> io::Result<usize> {
        self.limit()?;
        self.connection.write(bytes)
    }

    fn flush(&mut self) -> io::Result<()> {
        self.connection.flush()
    }
}

impl<'a, R: Clock, C: Connection> Output for Timely<'a, R, C> {
    ghost fails = { λ to. ⊤ };

    fn write_some(&mut self, bytes: &[u8]) -> Result<usize, WriteFailed> {
        match self.limit() {
            Ok(()) => write_patiently(&mut self.connection, bytes),
            Err(_) => Err(WriteFailed),
        }
    }
}
