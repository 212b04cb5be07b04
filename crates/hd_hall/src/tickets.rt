//! Tickets: the numbers of a hall's seats, each given once.

ghost use Rattle.std.specs.Prelude.{◌≡◌, ◌+◌, ◌↔◌, IsNone, IfSome, IfNone, OnSome, ℕ};

use crate::house::House;
use hd_journal::SeatNo;
use std::marker::{Model, PhantomData};
use std::sync::ledger::Share;

/// How many seats a hall has.
pub(crate) const SEATS: u32 = 4_294_967_295;

/// The number of a seat. No other seat of its house has it, since only `Tickets` give numbers.
///
/// It can't be dropped: one that was given goes with its seat.
pub(crate) struct Ticket<H: House> {
    number: SeatNo,
    of: PhantomData<H>,
}

impl<H: House> Model for Ticket<H> {
    ghost Value = { ℕ };

    ghost view = { λ ticket. ticket.number };
}

impl<H: House> Ticket<H> {
    /// The number.
    pub(crate) fn number(&self) -> SeatNo
        ensures { result ≡ self.now }
    {
        self.number
    }

    /// Lets it go, with its seat.
    pub(crate) fn retire(self) {
        let Ticket {
            number: _number,
            of: _of,
        } = self;
    }
}

/// The numbers that no seat has yet, with the parts of the ledger that no seat has: one for each such number,
/// and one more.
///
/// They begin with all parts of the ledger, and no part comes back to them. So a house has them once.
#[derive(Drop)]
pub(crate) struct Tickets<H: House> {
    rest: Share<H>,
    pub(crate) given: u32,
    ghost parts: { rest.parts + given ≡ 4294967296 },
    ghost empty: { rest.amount ≡ 0 },
}

impl<H: House> Tickets<H> {
    /// All tickets of a ledger.
    pub(crate) fn new(rest: Share<H>) -> Tickets<H>
        requires parts { rest.parts ≡ 4294967296 }
        requires empty { rest.amount ≡ 0 }
        ensures { result.given ≡ 0 }
    {
        Tickets { rest, given: 0 }
    }

    /// The ticket of the next number, the first being 1, with one part of the ledger, or `None` where all
    /// have been given.
    pub(crate) fn next(&mut self) -> Option<(Ticket<H>, Share<H>)>
        ensures none { IsNone result ↔ (self.old.given ≡ SEATS) }
        ensures number { IfSome result (λ new. new.0 ≡ self.old.given + 1) }
        ensures part { IfSome result (λ new. (new.1.parts ≡ 1) × (new.1.amount ≡ 0)) }
        ensures given { OnSome result (self.new.given ≡ self.old.given + 1) }
        ensures same { IfNone result (self.new ≡ self.old) }
    {
        if self.given == SEATS {
            return None;
        }
        let share = self.rest.split_off(1, 0);
        self.given += 1;
        let ticket = Ticket {
            number: SeatNo::new(self.given),
            of: PhantomData,
        };
        Some((ticket, share))
    }

    /// The parts that no seat has.
    pub(crate) fn into_rest(self) -> Share<H>
        ensures parts { result.parts + self.given ≡ 4294967296 }
        ensures empty { result.amount ≡ 0 }
    {
        let Tickets {
            rest,
            given: _given,
        } = self;
        rest
    }
}
