//! How faults and warnings are printed.
ghost use Rattle.std.specs.Prelude.{Some};
ghost use Rattle.hd_diagnosis.specs.Texts.{fault_text, warning_text};

use crate::fault::Fault;
use crate::warning::Warning;
use std::error::Error;
use std::fmt;

/// `LINE: CAUSE: words`, as `3: UNKNOWN: branch 'nroth' (value 4) isn't defined; did you mean 'north'?`.
impl fmt::Display for Fault {
    ghost output = { λ fault. Some (fault_text fault) };

    fn fmt<W: fmt::Write>(&self, f: &mut fmt::Formatter<W>) -> fmt::Result {
        let line = self.at.line;
        let cause = self.at.cause;
        let words = &self.words;
        write!(f, "{line}: {cause}: {words}")
    }
}

impl Error for Fault {}

/// `LINE: warning: words`.
impl fmt::Display for Warning {
    ghost output = { λ warning. Some (warning_text warning) };

    fn fmt<W: fmt::Write>(&self, f: &mut fmt::Formatter<W>) -> fmt::Result {
        let line = self.line;
        let words = &self.words;
        write!(f, "{line}: warning: {words}")
    }
}
