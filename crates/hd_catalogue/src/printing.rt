//! How causes and faults are printed.
ghost use Rattle.std.specs.Prelude.{Some};
ghost use Rattle.hd_catalogue.specs.Causes.{cause_text, fault_text};

use crate::cause::{CatFault, Cause};
use std::error::Error;
use std::fmt;

impl fmt::Display for Cause {
    ghost output = { λ cause. Some (cause_text cause) };

    fn fmt<W: fmt::Write>(&self, f: &mut fmt::Formatter<W>) -> fmt::Result {
        match self {
            Cause::Header => write!(f, "HEADER"),
            Cause::Kind => write!(f, "KIND"),
            Cause::Fields => write!(f, "FIELDS"),
            Cause::Text => write!(f, "TEXT"),
            Cause::Number => write!(f, "NUMBER"),
            Cause::Double => write!(f, "DOUBLE"),
            Cause::Unknown => write!(f, "UNKNOWN"),
            Cause::Limit => write!(f, "LIMIT"),
            Cause::Memory => write!(f, "MEMORY"),
        }
    }
}

/// `line N: CAUSE`, as `line 2: UNKNOWN`.
impl fmt::Display for CatFault {
    ghost output = { λ fault. Some (fault_text fault) };

    fn fmt<W: fmt::Write>(&self, f: &mut fmt::Formatter<W>) -> fmt::Result {
        let line = self.line;
        let cause = self.cause;
        write!(f, "line {line}: {cause}")
    }
}

impl Error for CatFault {}
