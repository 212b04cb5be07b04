//! What one command asked and found.
ghost use Rattle.std.specs.Prelude.{◌≡◌, ◌<◌, ◌≤◌, [], ◌∷◌, ◌++◌, length};

use hd_rules::Finding;
use smallvec::SmallVec;
use std::alloc::Global;
use std::marker::Model;

/// The questions that one command asks with their noted answers, in order: at most four (docs/desk-rules.md).
/// They are kept in the value itself, so that no call asks the allocator for memory.
#[derive(Drop, Debug)]
pub struct Findings {
    findings: SmallVec<Finding, 4>,
}

impl Model for Findings {
    ghost use Rattle.std.specs.Prelude.{List, ◌≡◌, ◌≤◌, length};
    ghost use Rattle.hd_rules.specs.declared.questions.Finding.{Finding};

    ghost Value = { List Finding };

    ghost view = { λ f. f.findings.items };

    ghost invariant = { λ f. (f.findings.capacity ≡ 4) × (length f.findings.items ≤ 4) };
}

impl Findings {
    /// No questions.
    pub fn new(alloc: Global) -> Findings
        ensures { result ≡ [] }
    {
        Findings {
            findings: SmallVec::new(alloc),
        }
    }

    /// Puts one more question with its noted answer after the others.
    pub fn push(&mut self, finding: Finding)
        requires { length self.old < 4 }
        ensures { self.new ≡ self.old ++ finding ∷ [] }
    {
        // Taken apart, since the checker of borrows can't follow one that is handed on whole.
        let Finding { question, noted } = finding;
        self.findings.push_reserved(Finding { question, noted });
    }

    /// The questions with their noted answers, in order.
    pub fn findings(&self) -> &[Finding]
        ensures findings { result.now ≡ self.now }
        ensures few { length self.now ≤ 4 }
    {
        self.findings.as_slice()
    }
}
