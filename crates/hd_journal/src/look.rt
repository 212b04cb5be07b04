//! What reads a journal at one moment.

ghost use Rattle.hd_catalogue.specs.Contents.{Contents};
ghost use Rattle.hd_journal.specs.Books.{Book};

use crate::journal::Journal;
use std::alloc::Allocator;

/// What reads a journal at one moment, between two turns, and takes down what it was made for.
///
/// It is lent the journal, so it can change nothing there. The room for what it takes down is made before it
/// looks: the journal may be under a lock.
pub trait Look<A: Allocator> {
    /// That all that it asks about is of the catalogue.
    ghost fits: { Self → Contents → Type 0 };

    /// That it took down what this journal shows: what it was before, the journal, and what it is then.
    ghost saw: { Self → Book → Self → Type 0 };

    /// Reads the journal.
    fn look(&mut self, journal: &Journal<A>)
        requires { fits self.old journal.now.contents }
        ensures { saw self.old journal.now self.new };
}
