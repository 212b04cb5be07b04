//! As whom a session is logged in.

use hd_rules::{BranchNo, TerminalNo};

/// The terminal as which a session is logged in, and its branch.
#[derive(Clone, Copy, PartialEq, Eq, Debug)]
pub struct Login {
    /// The terminal that logged in.
    pub terminal: TerminalNo,
    /// The branch where the terminal is.
    pub branch: BranchNo,
}
