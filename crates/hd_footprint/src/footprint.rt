//! The changes of one command.
ghost use Rattle.std.specs.Prelude.{◌≡◌, ◌<◌, ◌≤◌, [], ◌∷◌, ◌++◌, length};

use hd_rules::Change;
use smallvec::SmallVec;
use std::alloc::Global;
use std::marker::Model;

/// The changes that one command makes, in order: at most four (docs/desk-rules.md). They are kept in the
/// value itself, so that no call asks the allocator for memory.
#[derive(Drop, Debug)]
pub struct Footprint {
    changes: SmallVec<Change, 4>,
}

impl Model for Footprint {
    ghost use Rattle.std.specs.Prelude.{List, ◌≡◌, ◌≤◌, length};
    ghost use Rattle.hd_rules.specs.declared.cells.Change.{Change};

    ghost Value = { List Change };

    ghost view = { λ f. f.changes.items };

    ghost invariant = { λ f. (f.changes.capacity ≡ 4) × (length f.changes.items ≤ 4) };
}

impl Footprint {
    /// No changes.
    pub fn new(alloc: Global) -> Footprint
        ensures { result ≡ [] }
    {
        Footprint {
            changes: SmallVec::new(alloc),
        }
    }

    /// Takes all changes out.
    pub fn clear(&mut self)
        ensures { self.new ≡ [] }
    {
        self.changes.clear();
    }

    /// Puts one more change after the others.
    pub fn push(&mut self, change: Change)
        requires { length self.old < 4 }
        ensures { self.new ≡ self.old ++ change ∷ [] }
    {
        // Taken apart, since the checker of borrows can't follow one that is handed on whole.
        let Change { cell, old, new } = change;
        self.changes.push_reserved(Change { cell, old, new });
    }

    /// The allocator, which would be asked for memory only if there were more than four.
    pub fn allocator(&self) -> Global {
        *self.changes.allocator()
    }

    /// The changes, in order.
    pub fn changes(&self) -> &[Change]
        ensures changes { result.now ≡ self.now }
        ensures few { length self.now ≤ 4 }
    {
        self.changes.as_slice()
    }
}
