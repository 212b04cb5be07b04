//! What a catalogue says of a terminal.
ghost use Rattle.std.specs.Prelude.{◌≡◌, bytes_eq};

use hd_rules::BranchNo;
use std::alloc::Allocator;
use std::marker::Model;

/// A terminal's password and its branch.
#[derive(Drop)]
pub struct TerminalFacts<A: Allocator> {
    password: Vec<u8, A>,
    branch: BranchNo,
}

impl<A: Allocator> Model for TerminalFacts<A> {
    ghost use Rattle.hd_catalogue.specs.Terminal.{Terminal};

    ghost Value = { Terminal };

    ghost view = { λ terminal. record { password = terminal.password.items; branch = terminal.branch } };
}

impl<A: Allocator> TerminalFacts<A> {
    pub(crate) fn new(password: Vec<u8, A>, branch: BranchNo) -> TerminalFacts<A>
        ensures { result ≡ record { password = password.items; branch = branch } }
    {
        TerminalFacts { password, branch }
    }

    /// The branch at which the terminal stands.
    pub(crate) fn branch(&self) -> BranchNo
        ensures { result ≡ self.now.branch }
    {
        self.branch
    }

    /// Whether this is the terminal's password, byte by byte.
    pub(crate) fn has_password(&self, password: &[u8]) -> bool
        ensures { result ≡ bytes_eq self.now.password password.now }
    {
        self.password.as_slice() == password
    }
}
