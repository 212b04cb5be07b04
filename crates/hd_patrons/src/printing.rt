//! How a fault is printed.
ghost use Rattle.std.specs.Prelude.{Some};
ghost use Rattle.hd_patrons.specs.Faults.{fault_text};

use crate::fault::PatronsFault;
use std::error::Error;
use std::fmt;

/// `patrons line N: CAUSE`, as `patrons line 2: UNKNOWN`.
impl fmt::Display for PatronsFault {
    ghost output = { λ fault. Some (fault_text fault) };

    fn fmt<W: fmt::Write>(&self, f: &mut fmt::Formatter<W>) -> fmt::Result {
        let line = self.line;
        let cause = self.cause;
        write!(f, "patrons line {line}: {cause}")
    }
}

impl Error for PatronsFault {}
