//! What counts a journal.
ghost use Rattle.std.specs.Prelude.{◌≡◌, IfOk, IfSome, length};
ghost use Rattle.hd_list_pages.specs.Counting.{IsEnded};
ghost use Rattle.hd_list_pages.specs.Tallies.{no_turns};

use crate::standing::state_of;
use crate::tallied::TurnTallies;
use hd_http::{Health, State};
use hd_journal::{Journal, Look};
use hd_list_rows::CountsReader;
use std::alloc::{AllocError, Allocator, Global};

/// What takes down the counts of a journal, and goes on counting its turns by kind and outcome.
#[derive(Drop)]
pub(crate) struct StateReader {
    /// The counts of the journal that was looked at last.
    pub(crate) counts: CountsReader,
    /// The turns that have been gone through.
    pub(crate) tallied: TurnTallies,
}

impl StateReader {
    /// A reader that hasn't looked yet, of a journal whose turns behind so many are counted by kind and
    /// outcome, and whose catalogue has so many terminals.
    ///
    /// # Errors
    /// There is no memory for the terminals.
    pub(crate) fn new(
        alloc: Global,
        begun: usize,
        terminals: usize,
    ) -> Result<StateReader, AllocError>
        ensures begun { IfOk result (λ reader. reader.tallied.begun ≡ begun) }
        ensures place { IfOk result (λ reader. reader.tallied.place ≡ 0) }
        ensures turns { IfOk result (λ reader. reader.tallied.turns ≡ no_turns) }
        ensures room { IfOk result (λ reader. length reader.tallied.last.items ≡ terminals) }
    {
        Ok(StateReader {
            counts: CountsReader { counts: None },
            tallied: TurnTallies::new(alloc, begun, terminals)?,
        })
    }

    /// The state of the journal that was looked at last, unless it has more turns to be counted.
    pub(crate) fn state(&self) -> Option<State>
        ensures { IfSome result (IsEnded self.now) }
    {
        let counts = self.counts.counts?;
        if (self.tallied.place as u64) < counts.turns {
            return None;
        }
        Some(state_of(Health::Well, Some(counts), Some(self.tallied.turns)))
    }
}

impl<A: Allocator + Copy> Look<A> for StateReader {
    ghost use Rattle.std.specs.Prelude.{⊤};
    ghost use Rattle.hd_list_pages.specs.Counting.{HasCounted};

    ghost fits = { λ _ _. ⊤ };

    ghost saw = { HasCounted };

    fn look(&mut self, journal: &Journal<A>) {
        self.counts.look(journal);
        self.tallied.go_on(journal);
    }
}
