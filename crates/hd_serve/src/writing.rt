//! Writers that wait until their bytes are taken.
ghost use Rattle.std.specs.Prelude.{◌≡◌, ◌↔◌, IsTrue};
ghost use Rattle.hd_serve.specs.Waits.{IsWaitedFor, is_late};

use crate::standing::{Course, Standing};
use std::io::{self, ErrorKind, Write};
use std::sync::Wait;

/// Wraps a writer whose writes fail after they waited for a second. Such a write is tried again, until nothing
/// was taken for as many seconds as the connection may be idle, or the server is to end.
#[derive(Drop)]
pub(crate) struct Writing<'a, W, R> {
    to: W,
    standing: &'a Standing,
    rt: &'a R,
    /// For how many seconds nothing may be taken. With 0 this has no limit.
    idle: u32,
}

impl<'a, W: Write, R: Wait> Writing<'a, W, R> {
    /// Wraps a writer.
    pub(crate) fn new(to: W, standing: &'a Standing, rt: &'a R, idle: u32) -> Writing<'a, W, R>
        ensures { result.to ≡ to }
    {
        Writing {
            to,
            standing,
            rt,
            idle,
        }
    }
}

impl<'a, W: Write, R: Wait> Write for Writing<'a, W, R> {
    ghost contents = { λ writing. W.contents writing.to };

    fn write(&mut self, bytes: &[u8]) -> io::Result<usize> {
        let mut seconds = 0u32;
        for _ in self.rt.forever() {
            match self.to.write(bytes) {
                Ok(count) => return Ok(count),
                Err(error) => {
                    seconds = seconds.saturating_add(1);
                    let course = self.standing.course(self.rt);
                    if !is_waited_for(course, error.kind(), seconds, self.idle) {
                        return Err(error);
                    }
                }
            }
        }
        unreachable!()
    }

    fn flush(&mut self) -> io::Result<()> {
        self.to.flush()
    }
}

/// Whether a write that failed in this way is tried again, at a server on this course, after `seconds` in
/// which nothing was taken.
fn is_waited_for(course: Course, kind: ErrorKind, seconds: u32, idle: u32) -> bool
    ensures { IsTrue result ↔ IsWaitedFor course kind seconds idle }
{
    is_late(kind) && !course.is_to_end() && (idle == 0 || seconds < idle)
}

/// Whether a call failed because it had waited for as long as it may.
pub(crate) fn is_late(kind: ErrorKind) -> bool
    ensures { result ≡ is_late kind }
{
    matches!(kind, ErrorKind::WouldBlock | ErrorKind::TimedOut)
}
