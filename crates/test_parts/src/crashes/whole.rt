//! A row whose turns are all taken.

use crate::comparing::is_same_turn;
use crate::crashes::row::Step;
use crate::library::new_journal;
use crate::wishes::take;
use hd_journal::Journal;
use std::alloc::Global;

/// The journal of a row without a file.
pub(crate) struct Whole {
    journal: Journal,
    /// The numbers of its turns that change something, in their order.
    changing: Vec<usize>,
}

// Written out, so that a caller's proof sees one call and not the drop of each field.
impl Drop for Whole {
    fn drop(self) {
        let Whole {
            journal: _journal,
            changing: _changing,
        } = self;
    }
}

impl Whole {
    /// A row whose turns are all taken. None where there is no journal.
    pub(crate) fn of(rt: &HostRuntime, steps: &[Step]) -> Option<Whole> {
        match new_journal(rt) {
            Some(journal) => {
                let changing = Vec::new(rt.alloc());
                let mut whole = Whole { journal, changing };
                whole.take_all(rt.alloc(), steps);
                Some(whole)
            }
            None => None,
        }
    }

    /// Takes the turns of a row. One that isn't taken is none of its turns then.
    fn take_all(&mut self, alloc: Global, steps: &[Step]) {
        for step in steps {
            if take(alloc, &mut self.journal, &step.names, step.deed, step.line) == Some(true) {
                let _ = self.changing.push(self.journal.front());
            }
        }
    }

    /// How many of the first turns change something.
    pub(crate) fn changing_in(&self, turns: usize) -> usize {
        self.changing.iter().filter(|at| **at <= turns).count()
    }

    /// Whether a journal's turns are the first of those that change something.
    pub(crate) fn begins_with(&self, journal: &Journal) -> bool {
        let numbers = self.changing.as_slice();
        for at in 1..=journal.front() {
            let Some(number) = numbers.get(at - 1) else {
                return false;
            };
            if !is_same_turn(journal, at, &self.journal, *number) {
                return false;
            }
        }
        true
    }
}
