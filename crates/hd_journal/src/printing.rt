//! How it is printed why a turn couldn't be written.
ghost use Rattle.std.specs.Prelude.{Some};
ghost use Rattle.hd_journal.specs.Faults.{write_fault_text};

use crate::fault::WriteFault;
use std::fmt;

impl fmt::Display for WriteFault {
    ghost output = { λ why. Some (write_fault_text why) };

    fn fmt<W: fmt::Write>(&self, f: &mut fmt::Formatter<W>) -> fmt::Result {
        match self {
            WriteFault::Memory => write!(f, "out of memory"),
            WriteFault::DiskFull => write!(f, "the disk is full"),
            WriteFault::Refused => write!(f, "the system refuses the write"),
        }
    }
}
