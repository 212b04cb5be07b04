//! What is counted of a journal.

use hd_journal::{Journal, Look};
use std::alloc::Allocator;

/// What is counted of a journal.
#[derive(Clone, Copy)]
pub struct Counts {
    /// Its turns.
    pub turns: u64,
    /// The last number that was given to a command, or that given before it began.
    pub last_number: u64,
    /// How many numbers are left to be given.
    pub numbers_left: u64,
}

/// What takes these counts.
#[derive(Drop)]
pub struct CountsReader {
    /// The counts; nothing before the look.
    pub counts: Option<Counts>,
}

impl<A: Allocator + Copy> Look<A> for CountsReader {
    ghost use Rattle.std.specs.Prelude.{◌≡◌, ⊤, Some};
    ghost use Rattle.hd_list_rows.specs.Counted.{counts_of};

    ghost fits = { λ _ _. ⊤ };

    ghost saw = { λ _ book new. new.counts ≡ Some (counts_of book) };

    fn look(&mut self, journal: &Journal<A>) {
        let desk = journal.desk();
        let catalogue = desk.catalogue();
        let highest = u64::from(catalogue.last_before()) + catalogue.command_limit();
        let last_number = journal.last();
        self.counts = Some(Counts {
            turns: journal.front() as u64,
            last_number,
            numbers_left: highest.saturating_sub(last_number),
        });
    }
}
