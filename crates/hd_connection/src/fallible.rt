//! Readers and writers of which nothing is known.
ghost use Rattle.std.specs.Prelude.{⊤};

use crate::input::{Input, ReadFailed, read_patiently};
use crate::output::{Output, WriteFailed, write_patiently};
use std::io::{self, Read, Write};

/// A reader or a writer that may fail at any time, for any reason: a file, a socket, or one that isn't known.
/// A call that is interrupted is tried again, up to 16 times in a row.
#[derive(Drop)]
pub struct Fallible<T>(pub T);

impl<R: Read> Read for Fallible<R> {
    ghost remaining = { λ from. R.remaining from.0 };

    fn read(&mut self, piece: &mut [u8]) -> io::Result<usize> {
        self.0.read(piece)
    }
}

impl<R: Read> Input for Fallible<R> {
    ghost fails = { λ from. ⊤ };

    fn read_some(&mut self, piece: &mut [u8]) -> Result<usize, ReadFailed> {
        read_patiently(&mut self.0, piece)
    }
}

impl<W: Write> Write for Fallible<W> {
    ghost contents = { λ to. W.contents to.0 };

    fn write(&mut self, bytes: &[u8]) -> io::Result<usize> {
        self.0.write(bytes)
    }

    fn flush(&mut self) -> io::Result<()> {
        self.0.flush()
    }
}

impl<W: Write> Output for Fallible<W> {
    ghost fails = { λ to. ⊤ };

    fn write_some(&mut self, bytes: &[u8]) -> Result<usize, WriteFailed> {
        write_patiently(&mut self.0, bytes)
    }
}
