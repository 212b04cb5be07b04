//! How causes and faults are printed.
ghost use Rattle.std.specs.Prelude.{Some};
ghost use Rattle.hd_opening.specs.Causes.{cause_text, fault_text};

use crate::cause::{OpeningCause, OpeningFault};
use std::error::Error;
use std::fmt;

impl fmt::Display for OpeningCause {
    ghost output = { λ cause. Some (cause_text cause) };

    fn fmt<W: fmt::Write>(&self, f: &mut fmt::Formatter<W>) -> fmt::Result {
        match self {
            OpeningCause::Header => write!(f, "HEADER"),
            OpeningCause::Kind => write!(f, "KIND"),
            OpeningCause::Fields => write!(f, "FIELDS"),
            OpeningCause::Text => write!(f, "TEXT"),
            OpeningCause::Number => write!(f, "NUMBER"),
            OpeningCause::Unknown => write!(f, "UNKNOWN"),
            OpeningCause::Other => write!(f, "OTHER"),
            OpeningCause::Memory => write!(f, "MEMORY"),
        }
    }
}

/// `opening line N: CAUSE`, as `opening line 2: UNKNOWN`.
impl fmt::Display for OpeningFault {
    ghost output = { λ fault. Some (fault_text fault) };

    fn fmt<W: fmt::Write>(&self, f: &mut fmt::Formatter<W>) -> fmt::Result {
        let line = self.line;
        let cause = self.cause;
        write!(f, "opening line {line}: {cause}")
    }
}

impl Error for OpeningFault {}
