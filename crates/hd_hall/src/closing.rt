//! Closing: the receipts of all seats against the turns of the journal.

ghost use Rattle.std.specs.Prelude.{◌≡◌, ◌+◌, ◌-◌, ◌<◌, ◌≤◌, ◌↔◌, ℕ, Some, IsTrue, IfSome, IfNone, OnSome};
ghost use Rattle.std.specs.Prelude.{false, length, map, slice_get};
ghost use Rattle.std.specs.List.{All, Contains};
ghost use Rattle.hd_rules.specs.Journal.{Turn};
ghost use Rattle.hd_journal.specs.Books.{turn_numbered};
ghost use Rattle.hd_journal.specs.Shown.{turn_shown};
ghost use Rattle.hd_hall.specs.Closings.{AreAllParts, AreThere, AreTurnsOf, IsLacking, LacksReceipt};
ghost use Rattle.hd_hall.specs.Receipts.{StandsAt};
ghost use Rattle.hd_hall.specs.Seats.{EachSeat, IsWhole, all_receipts, with_part, without_part, shares};

use crate::hall_state::stands;
use crate::house::House;
use crate::seat::Seat;
use crate::stored_receipt::StoredReceipt;
use hd_journal::{TurnRef, Turns};
use std::alloc::Allocator;
use std::sync::ledger::{Book, Share};

/// The number of a turn of which no seat has the receipt. With `None` the turns are the receipts, and the
/// rest has all parts of the ledger.
pub(crate) fn differing<H: House, A: Allocator, T: Turns>(
    journal: &T,
    book: &mut Book<H>,
    rest: &mut Share<H>,
    seats: &mut [Seat<H, A>],
) -> Option<usize>
    requires seats { EachSeat seats.old (λ s. s.parts ≡ 1) }
    requires counted { book.old.total ≡ length (T.turns journal.now) }
    // nothing is counted in the rest, and with the seats it has all parts
    requires all { (rest.old.amount ≡ 0) × (0 < rest.old.parts)
        × (H.parts ≤ rest.old.parts + length seats.old) }
    ensures none { IfNone result (AreTurnsOf (T.opening journal.now) (T.turns journal.now) seats.old) }
    ensures some { IfSome result (LacksReceipt (T.opening journal.now) (T.turns journal.now) seats.old) }
    ensures same { OnSome result (seats.new ≡ seats.old) }
    ensures whole { EachSeat seats.old IsWhole }
    // no seat is there whose part the ledger hasn't
    ensures apart { (rest.old.parts + length seats.old ≤ H.parts)
        × IfNone result (AreAllParts H.parts rest.new.parts rest.new.amount (T.turns journal.now)) }
{
    gather(rest, seats);
    audit(book, rest);
    let front = journal.front();
    if are_there(journal, seats) {
        return None;
    }
    match first_without_receipt(journal, seats, front) {
        None => None,
        Some(number) => {
            give_back(rest, seats);
            Some(number)
        }
    }
}

/// Gathers the parts of all seats.
fn gather<H: House, A: Allocator>(all: &mut Share<H>, seats: &mut [Seat<H, A>])
    requires { EachSeat seats.old (λ s. s.parts ≡ 1) }
    ensures parts { all.new.parts ≡ all.old.parts + length seats.old }
    ensures amount { all.new.amount ≡ all.old.amount + shares seats.old }
    ensures lent { seats.new ≡ map without_part seats.old }
    ensures whole { EachSeat seats.old IsWhole }
{
    for seat in seats.iter_mut() {
        seat.lend(all);
    }
}

/// Sees that some parts of the ledger are no more than all, and that with all of them goes all that the book
/// counts.
fn audit<H: House>(book: &mut Book<H>, some: &mut Share<H>)
    ensures apart { some.old.parts ≤ H.parts }
    ensures bound { some.old.amount ≤ book.old.total }
    ensures whole { H.parts ≤ some.old.parts → some.old.amount ≡ book.old.total }
    ensures same { (some.new.parts ≡ some.old.parts) × (some.new.amount ≡ some.old.amount) }
{
    let none = some.empty();
    some.merge(none);
    book.audit(some);
}

/// Gives each seat its part again.
fn give_back<H: House, A: Allocator>(all: &mut Share<H>, seats: &mut [Seat<H, A>])
    requires lent { EachSeat seats.old (λ s. s.parts ≡ 0) }
    requires parts { length seats.old < all.old.parts }
    requires amount { length (all_receipts seats.old) ≤ all.old.amount }
    ensures { seats.new ≡ map with_part seats.old }
{
    for seat in seats.iter_mut() {
        seat.take_back(all);
    }
}

/// Whether the seats are in the order of their numbers, and each receipt is of the journal's turn of its
/// number.
fn are_there<H: House, A: Allocator, T: Turns>(journal: &T, seats: &[Seat<H, A>]) -> bool
    ensures { IsTrue result ↔ AreThere (T.turns journal.now) 0 seats.now }
{
    let mut last = 0;
    for seat in seats {
        let number = seat.number().number();
        if number <= last || !all_stand(journal, seat.receipts()) {
            return false;
        }
        last = number;
    }
    true
}

/// Whether each receipt is of the journal's turn of its number.
fn all_stand<A: Allocator, T: Turns>(journal: &T, receipts: &[StoredReceipt<A>]) -> bool
    ensures { IsTrue result ↔ All (StandsAt (T.turns journal.now)) receipts.now }
{
    for receipt in receipts {
        if !stands(journal, receipt) {
            return false;
        }
    }
    true
}

/// The first turn of which no seat has the receipt, of `front` turns.
fn first_without_receipt<H: House, A: Allocator, T: Turns>(
    journal: &T,
    seats: &[Seat<H, A>],
    front: usize,
) -> Option<usize>
    requires { front ≡ length (T.turns journal.now) }
    ensures none { IfNone result ((k : ℕ) (t : Turn) → slice_get (T.turns journal.now) k ≡ Some t
        → Contains (all_receipts seats.now) (record { number = k + 1; turn = t })) }
    ensures some { IfSome result (IsLacking (T.turns journal.now) seats.now) }
{
    for at in 0..front {
        let number = at + 1;
        if !is_received(journal, seats, number) {
            return Some(number);
        }
    }
    None
}

/// Whether some seat has the receipt of the turn of this number, where there is such a turn.
fn is_received<H: House, A: Allocator, T: Turns>(
    journal: &T,
    seats: &[Seat<H, A>],
    number: usize,
) -> bool
    ensures yes { IsTrue result → (t : Turn) → turn_numbered (T.turns journal.now) number ≡ Some t
        → Contains (all_receipts seats.now) (record { number = number; turn = t }) }
    ensures no { result ≡ false → (t : Turn) × (turn_numbered (T.turns journal.now) number ≡ Some t)
        × (Contains (all_receipts seats.now) (record { number = number; turn = t }) → ⊥) }
{
    match journal.turn_at(number) {
        None => true,
        Some(turn) => has_receipt(seats, number, &turn),
    }
}

/// Whether some seat has this turn's receipt.
fn has_receipt<H: House, A: Allocator>(
    seats: &[Seat<H, A>],
    number: usize,
    turn: &TurnRef<'_>,
) -> bool
    ensures { IsTrue result
        ↔ Contains (all_receipts seats.now) (record { number = number; turn = turn_shown turn.now }) }
{
    for seat in seats {
        if holds(seat.receipts(), number, turn) {
            return true;
        }
    }
    false
}

/// Whether one of these is the turn's receipt.
fn holds<A: Allocator>(receipts: &[StoredReceipt<A>], number: usize, turn: &TurnRef<'_>) -> bool
    ensures { IsTrue result
        ↔ Contains receipts.now (record { number = number; turn = turn_shown turn.now }) }
{
    for receipt in receipts {
        if receipt.is_of(number, turn) {
            return true;
        }
    }
    false
}
