//! A fault of a catalogue file.
ghost use Rattle.std.specs.Prelude.{◌≡◌, IfOk, string_bytes, true};
ghost use Rattle.hd_diagnosis.specs.Printable.{is_line};

use crate::printable::printable;
use hd_catalogue::CatFault;
use std::alloc::{AllocError, Global};

/// A fault of a catalogue file, as it is reported to staff.
#[derive(Debug, Drop)]
pub struct Fault {
    /// The line and the cause.
    pub at: CatFault,
    /// What is wrong with it, on one line of printable characters.
    pub words: String,
    ghost line: { is_line (string_bytes words) ≡ true },
}

impl Fault {
    /// A fault with these words.
    ///
    /// # Errors
    /// Out of memory.
    pub(crate) fn new(alloc: Global, at: CatFault, words: &str) -> Result<Fault, AllocError>
        ensures { IfOk result (λ fault. fault.at ≡ at) }
    {
        let words = printable(alloc, words.as_bytes())?;
        Ok(Fault { at, words })
    }
}
