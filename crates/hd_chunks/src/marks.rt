//! Marks, by which chunks are passed over that have no item of a kind.
ghost use Rattle.std.specs.Prelude.{◌≡◌, ℕ, true};
ghost use Rattle.hd_chunks.specs.Marks.{may_have};

use std::marker::Model;

/// How many marks are told apart.
pub(crate) const MARKS: usize = 64;

/// How the items of a list are marked: each by a number, as a hold by its branch.
pub trait Marking<T> {
    /// An item's mark.
    ghost mark: { T → ℕ };

    /// An item's mark.
    fn mark(item: &T) -> usize
        ensures { result ≡ mark item.now };
}

/// The marks that the items of a chunk may have. Marks that are 64 apart aren't told apart.
#[derive(Drop)]
pub(crate) struct Marks {
    noted: [bool; MARKS],
}

impl Model for Marks {
    ghost use Rattle.std.specs.Prelude.{Bool, List};

    ghost Value = { List Bool };

    ghost view = { λ m. m.noted };
}

impl Marks {
    /// No marks.
    pub(crate) fn new() -> Marks {
        Marks {
            noted: [false; MARKS],
        }
    }

    /// Notes a mark.
    pub(crate) fn note(&mut self, mark: usize)
        ensures noted { may_have self.new mark ≡ true }
        ensures kept { (other : ℕ) → may_have self.old other ≡ true → may_have self.new other ≡ true }
    {
        self.noted[mark % MARKS] = true;
    }

    /// Notes the marks of another chunk.
    pub(crate) fn note_all(&mut self, others: &Marks)
        ensures noted { (other : ℕ) → may_have others.now other ≡ true → may_have self.new other ≡ true }
        ensures kept { (other : ℕ) → may_have self.old other ≡ true → may_have self.new other ≡ true }
    {
        for mark in 0..MARKS {
            if others.noted[mark] {
                self.noted[mark] = true;
            }
        }
    }

    /// Whether the mark was noted, or one that isn't told from it.
    pub(crate) fn may_have(&self, mark: usize) -> bool
        ensures { result ≡ may_have self.now mark }
    {
        self.noted[mark % MARKS]
    }
}
