//! What an accepted command did.
ghost use Rattle.std.specs.Prelude.{◌≡◌, []};

use hd_footprint::{Findings, Footprint};
use hd_rules::{Change, Finding};
use std::alloc::Global;
use std::marker::Model;

/// What an accepted command did, and what it asked. The desk's caller keeps it, so that the next command is
/// written into the same memory.
#[derive(Drop, Debug)]
pub struct Done {
    pub(crate) changes: Footprint,
    pub(crate) findings: Findings,
}

impl Model for Done {
    ghost use Rattle.hd_desk.specs.DoneValue.{DoneValue};

    ghost Value = { DoneValue };

    ghost view = { λ done. record { changes = done.changes; findings = done.findings } };
}

impl Done {
    /// Nothing is done yet. The allocator is never asked for memory.
    pub fn new(alloc: Global) -> Done
        ensures { result ≡ record { changes = []; findings = [] } }
    {
        Done {
            changes: Footprint::new(alloc),
            findings: Findings::new(alloc),
        }
    }

    /// The changes in order, and the questions in order with their noted answers, lent.
    pub fn parts(&self) -> (&Footprint, &Findings)
        ensures changes { result.0.now ≡ self.now.changes }
        ensures findings { result.1.now ≡ self.now.findings }
    {
        (&self.changes, &self.findings)
    }

    /// The changed cells in order, each with the value before and after.
    pub fn changes(&self) -> &[Change]
        ensures { result.now ≡ self.now.changes }
    {
        self.changes.changes()
    }

    /// The questions that it asked, in order, each with its noted answer.
    pub fn findings(&self) -> &[Finding]
        ensures { result.now ≡ self.now.findings }
    {
        self.findings.findings()
    }
}
