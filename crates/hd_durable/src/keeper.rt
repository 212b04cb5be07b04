//! A durable journal as what keeps a hall's journal.

ghost use Rattle.std.specs.Prelude.{◌≡◌, ◌≤◌, [], drop, length};

use crate::journal::DurableJournal;
use crate::table::TurnTable;
use hd_catalogue::Catalogue;
use hd_journal::{
    Ask, CataloguedKeeper, Keeper, Look, OwnedAsk, Turn, TurnFault, TurnRef, Turns, WriteFault,
};
use std::alloc::{AllocError, Allocator, Global};
use std::sync::Arc;

/// A durable journal under a hall's lock. The hall counts the turns from here on.
pub struct DurableKeeper<T: TurnTable, A: Allocator = Global> {
    journal: DurableJournal<T, A>,
    /// How many turns the journal had when it became a keeper.
    begun: usize,
    ghost within: { begun ≤ length journal.turns },
}

// Written out, so that a caller's proof sees one call and not the drop of each field.
impl<T: TurnTable + Drop, A: Allocator> Drop for DurableKeeper<T, A> {
    fn drop(self) {
        let DurableKeeper {
            journal: _journal,
            begun: _begun,
        } = self;
    }
}

impl<T: TurnTable, A: Allocator + Copy> DurableKeeper<T, A> {
    /// A keeper, which has come through no turns yet.
    pub fn new(journal: DurableJournal<T, A>) -> DurableKeeper<T, A>
        ensures journal { result.journal ≡ journal }
        ensures begun { result.begun ≡ length journal.turns }
        ensures none { drop result.begun result.journal.turns ≡ [] }
    {
        let begun = journal.front();
        DurableKeeper { journal, begun }
    }

    /// The journal.
    pub fn into_journal(self) -> DurableJournal<T, A>
        ensures { result ≡ self.journal }
    {
        let DurableKeeper {
            journal,
            begun: _begun,
        } = self;
        journal
    }
}

impl<T: TurnTable, A: Allocator + Copy> Turns for DurableKeeper<T, A> {
    ghost use Rattle.std.specs.Prelude.{drop, take};

    ghost opening = { λ keeper. record {
      contents = keeper.journal.contents;
      begun = take keeper.begun keeper.journal.turns;
    } };

    ghost turns = { λ keeper. drop keeper.begun keeper.journal.turns };

    fn front(&self) -> usize {
        self.journal.front() - self.begun
    }

    fn turn_at(&self, at: usize) -> Option<TurnRef<'_>> {
        let front = self.journal.front();
        if at == 0 || at > front - self.begun {
            return None;
        }
        self.journal.turn_at(self.begun + at)
    }
}

impl<T: TurnTable, A: Allocator + Copy> Keeper<A, OwnedAsk<A>> for DurableKeeper<T, A> {
    ghost use Rattle.hd_journal.specs.Faults.{IsMemoryOrUnwritten};
    ghost use Rattle.hd_durable.specs.Durable.{IsTakeFault, refuses_turn_of};

    ghost asks = { λ ask. ask };

    ghost faults = { IsMemoryOrUnwritten };

    ghost causes = { λ old ask new. IsTakeFault (refuses_turn_of
        (λ turn. T.refuses old.journal.table turn new.journal.table) ask)
        old.journal new.journal };

    ghost shut = { λ keeper. keeper.journal.shut };

    fn own(alloc: A, ask: &Ask<'_>) -> Result<OwnedAsk<A>, AllocError> {
        OwnedAsk::of(alloc, ask)
    }

    fn take(&mut self, own: OwnedAsk<A>) -> Result<Turn, TurnFault> {
        let turn = self.journal.take(own)?;
        Ok(Turn {
            at: turn.at - self.begun,
            reply: turn.reply,
        })
    }

    fn show<L: Look<A>>(&self, reader: &mut L) -> Result<(), WriteFault> {
        reader.look(self.journal.answered_journal()?);
        Ok(())
    }
}

impl<T: TurnTable, A: Allocator + Copy> CataloguedKeeper<A, OwnedAsk<A>> for DurableKeeper<T, A> {
    fn catalogue(&self) -> &Arc<Catalogue<A>, A> {
        self.journal.catalogue()
    }
}
