//! An office that is estranged at its second turn.

use crate::library::new_journal;
use hd_catalogue::Catalogue;
use hd_exchange::{Ask, Office, SeatNo, Turn, TurnFault};
use hd_journal::{Journal, Look};
use std::alloc::Global;

/// A journal that gives one turn, and is another session's from then on.
#[derive(Drop)]
pub(crate) struct Moved {
    journal: Journal,
}

impl Moved {
    /// A journal without turns.
    pub(crate) fn new(rt: &HostRuntime) -> Option<Moved> {
        let journal = new_journal(rt)?;
        Some(Moved { journal })
    }

    /// How many turns it has given.
    pub(crate) fn turns(&self) -> usize {
        self.journal.front()
    }
}

impl Office<Global> for Moved {
    ghost use Rattle.std.specs.Prelude.{◌≡◌, [], length};
    ghost use Rattle.hd_journal.specs.Books.{IsLegalBook};

    ghost keeps = { λ moved. record { contents = moved.journal.contents; seat = 0; borrows = [] } };

    ghost turns = { λ moved. moved.journal.turns };

    ghost last_number = { λ moved. length moved.journal.turns };

    ghost faults = { λ fault. Unit {0} };

    ghost causes = { λ old new fault. Unit {0} };

    ghost holds = { λ moved. IsLegalBook moved.journal.contents moved.journal.turns };

    ghost shows = { λ turns book. book.turns ≡ turns };

    fn catalogue(&self) -> &Catalogue {
        Office::catalogue(&self.journal)
    }

    fn seat(&self) -> SeatNo {
        Office::seat(&self.journal)
    }

    fn look<L: Look<Global>>(&self, reader: &mut L) -> Result<(), TurnFault> {
        Office::look(&self.journal, reader)
    }

    fn turn(&mut self, ask: &Ask<'_>) -> Result<Turn, TurnFault> {
        let front = self.journal.front();
        if front > 0 {
            return Err(TurnFault::Estranged { front });
        }
        self.journal.turn(ask)
    }
}
