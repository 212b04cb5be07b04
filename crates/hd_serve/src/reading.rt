//! Readers that are at their end where the server is to end, and that remember how a read failed.
ghost use Rattle.std.specs.Prelude.{◌≡◌, IsFalse, IsTrue, None, Ok};
ghost use Rattle.std.specs.Io.{ReadsAtMost};
ghost use Rattle.std.specs.Io.KnownBytes.{ReadConsumes};
ghost use Rattle.hd_serve.specs.Ends.{is_to_end};

use crate::standing::{Course, Standing};
use crate::writing::is_late;
use std::io::{self, ErrorKind, Read};
use std::sync::Wait;

/// Wraps a reader: it is at its end where the server is to end, and then reads no more, whatever has come. It
/// remembers how its last read failed, if it did.
#[derive(Drop)]
pub(crate) struct Reading<'a, I, R> {
    from: I,
    standing: &'a Standing,
    rt: &'a R,
    failed: Option<ErrorKind>,
}

impl<'a, I: Read, R: Wait> Reading<'a, I, R> {
    /// Wraps a reader.
    pub(crate) fn new(from: I, standing: &'a Standing, rt: &'a R) -> Reading<'a, I, R>
        ensures { result.from ≡ from }
    {
        Reading {
            from,
            standing,
            rt,
            failed: None,
        }
    }

    /// Whether the last read waited for longer than it may.
    pub(crate) fn is_idle(&self) -> bool {
        match self.failed {
            Some(kind) => is_late(kind),
            None => false,
        }
    }
}

impl<'a, I: Read, R: Wait> Read for Reading<'a, I, R> {
    // Nobody knows what will be read: the server may be to end at any time.
    ghost remaining = { λ _. None };

    fn read(&mut self, piece: &mut [u8]) -> io::Result<usize> {
        let came = read_on(self.standing.course(self.rt), &mut self.from, piece);
        self.failed = match &came {
            Ok(_) => None,
            Err(error) => Some(error.kind()),
        };
        came
    }
}

/// Reads as the reader does, at a server on this course. Where the server is to end, reads nothing, as at the
/// end of input.
fn read_on<I: Read>(course: Course, from: &mut I, piece: &mut [u8]) -> io::Result<usize>
    ensures bound { ReadsAtMost result piece.new }
    ensures ending { IsTrue (is_to_end course) → (result ≡ Ok 0) × (from.new ≡ from.old) }
    ensures going { IsFalse (is_to_end course)
        → ReadConsumes (I.remaining from.old) (I.remaining from.new) result piece.new }
{
    if course.is_to_end() {
        return Ok(0);
    }
    from.read(piece)
}
