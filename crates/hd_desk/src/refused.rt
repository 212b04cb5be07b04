//! Why a command isn't accepted.

use hd_rules::Refusal;

/// Why a command wasn't accepted. It changed nothing.
#[derive(Clone, Copy, PartialEq, Eq, Debug)]
pub enum Refused {
    /// The rules refuse it.
    Rule(Refusal),
    /// The rules accept it, and there was no memory for it.
    Memory,
}
