//! Seats.

ghost use Rattle.std.specs.Prelude.{◌≡◌, ◌+◌, ◌<◌, ◌≤◌, ◌%◌, OnErr, OnOk, length, vec_capacity};
ghost use Rattle.hd_hall.specs.Seats.{HasRoom, without_part, with_part, IsSeat, IsWhole};

use crate::house::House;
use crate::stored_receipt::StoredReceipt;
use crate::tickets::Ticket;
use hd_journal::SeatNo;
use std::alloc::{AllocError, Allocator, Global};
use std::marker::Model;
use std::sync::ledger::Share;

/// For how many receipts a seat makes room at a time.
const PIECE: usize = 16;

/// A place in a hall, with a number that no other seat of the hall has, the receipts of the turns that were
/// made from it, and one part of the hall's ledger.
///
/// Its receipts are its own, in the order of the journal, and its share of what the ledger counts is their
/// number.
pub struct Seat<H: House, A: Allocator = Global> {
    pub(crate) ticket: Ticket<H>,
    pub(crate) receipts: Vec<StoredReceipt<A>, A>,
    pub(crate) share: Share<H>,
}

// Written out, so that a caller's proof sees one call and not the drop of each field.
impl<H: House, A: Allocator> Drop for Seat<H, A> {
    fn drop(self) {
        let Seat {
            ticket,
            receipts: _receipts,
            share: _share,
        } = self;
        ticket.retire();
    }
}

impl<H: House, A: Allocator> Model for Seat<H, A> {
    ghost use Rattle.std.specs.Prelude.{length, vec_capacity};
    ghost use Rattle.hd_hall.specs.Seats.{HasRoom, SeatView, IsSeat};

    ghost Value = { SeatView };

    ghost view = { λ s. record {
      number = s.ticket;
      receipts = s.receipts.items;
      parts = s.share.parts;
      share = s.share.amount;
    } };

    ghost invariant = { λ s. IsSeat H.opening (record {
      number = s.ticket;
      receipts = s.receipts.items;
      parts = s.share.parts;
      share = s.share.amount;
    }) × HasRoom (length s.receipts.items) (vec_capacity s.receipts) };
}

impl<H: House, A: Allocator> Seat<H, A> {
    /// Its number, from 1.
    pub fn number(&self) -> SeatNo
        ensures { result ≡ self.now.number }
    {
        self.ticket.number()
    }

    /// The receipts of the turns that were made from it, in order.
    pub fn receipts(&self) -> &[StoredReceipt<A>]
        ensures receipts { result.now ≡ self.now.receipts }
        ensures seat { IsSeat H.opening self.now }
    {
        self.receipts.as_slice()
    }

    /// Gives its part of the ledger to `all`, with its share.
    pub(crate) fn lend(&mut self, all: &mut Share<H>)
        requires { self.old.parts ≡ 1 }
        ensures whole { IsWhole self.old }
        ensures lent { self.new ≡ without_part self.old }
        ensures parts { all.new.parts ≡ all.old.parts + 1 }
        ensures amount { all.new.amount ≡ all.old.amount + self.old.share }
    {
        let count = self.receipts.len() as u64;
        self.share.give(all, 1, count);
    }

    /// Takes its part back.
    pub(crate) fn take_back(&mut self, all: &mut Share<H>)
        requires lent { self.old.parts ≡ 0 }
        requires parts { 1 < all.old.parts }
        requires amount { length self.old.receipts ≤ all.old.amount }
        ensures held { self.new ≡ with_part self.old }
        ensures parts { all.new.parts + 1 ≡ all.old.parts }
        ensures amount { all.new.amount + length self.old.receipts ≡ all.old.amount }
    {
        let count = self.receipts.len() as u64;
        all.give(&mut self.share, 1, count);
    }
}

/// No seat of a ledger has a part where all parts are in another's hand. So none is left of a hall that has
/// closed (`Hall::close`). It does nothing.
pub fn no_seat_is_left<H: House, A: Allocator>(ledger: &mut Share<H>, seat: &mut Seat<H, A>)
    requires { ledger.old.parts ≡ H.parts }
    ensures none { seat.old.parts ≡ 0 }
    ensures ledger { (ledger.new.parts ≡ ledger.old.parts) × (ledger.new.amount ≡ ledger.old.amount) }
    ensures seat { seat.new ≡ seat.old }
{
    seat.share.give(ledger, 0, 0);
}

/// Makes room for one receipt more: for sixteen, where there are as many as there was room for.
///
/// # Errors
/// Out of memory, which is asked for at every sixteenth receipt alone.
pub(crate) fn ready<A: Allocator>(receipts: &mut Vec<StoredReceipt<A>, A>) -> Result<(), AllocError>
    requires { HasRoom (length receipts.old.items) (vec_capacity receipts.old) }
    ensures items { receipts.new.items ≡ receipts.old.items }
    ensures still { HasRoom (length receipts.new.items) (vec_capacity receipts.new) }
    ensures more { OnOk result (HasRoom (length receipts.new.items + 1) (vec_capacity receipts.new)) }
    ensures full { OnErr result (length receipts.old.items % 16 ≡ 0) }
{
    if receipts.len() % PIECE == 0 {
        receipts.reserve(PIECE)?;
    }
    Ok(())
}
