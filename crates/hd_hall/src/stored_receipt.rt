//! Receipts, as a seat keeps them.

ghost use Rattle.std.specs.Prelude.{◌≡◌, ◌↔◌, IsTrue};
ghost use Rattle.hd_journal.specs.Shown.{turn_shown};
ghost use Rattle.hd_hall.specs.Receipts.{receipt_of};

use hd_journal::{Entry, OwnedAsk, Turn, TurnRef};
use std::alloc::Allocator;
use std::marker::Model;

/// A receipt, with a copy of its line.
#[derive(Drop)]
pub struct StoredReceipt<A: Allocator> {
    number: usize,
    turn: Entry<A>,
}

impl<A: Allocator> Model for StoredReceipt<A> {
    ghost use Rattle.hd_hall.specs.Receipts.{Receipted};

    ghost Value = { Receipted };

    ghost view = { λ receipt. record { number = receipt.number; turn = receipt.turn } };
}

impl<A: Allocator> StoredReceipt<A> {
    /// The receipt of the turn that was made of this.
    pub(crate) fn new(ask: OwnedAsk<A>, made: &Turn) -> StoredReceipt<A>
        ensures { result ≡ receipt_of ask made.now }
    {
        StoredReceipt {
            number: made.at,
            turn: ask.with_reply(made.reply),
        }
    }

    /// The turn's number in the journal, from 1.
    pub fn number(&self) -> usize
        ensures { result ≡ self.now.number }
    {
        self.number
    }

    /// The turn, with its line lent.
    pub fn turn(&self) -> TurnRef<'_>
        ensures { turn_shown result ≡ self.now.turn }
    {
        self.turn.show()
    }

    /// Whether it is of this turn, with this number: the same seat, terminal, question, line and reply.
    pub(crate) fn is_of(&self, number: usize, turn: &TurnRef<'_>) -> bool
        ensures { IsTrue result ↔ (self.now ≡ record { number = number; turn = turn_shown turn.now }) }
    {
        number == self.number && self.turn.is_of(turn)
    }
}
