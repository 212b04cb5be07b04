//! The seats of the connections, kept until the hall is closed.
ghost use Rattle.std.specs.Prelude.{◌≡◌, ◌+◌, ◌-◌, ◌<◌, ◌≤◌, ◌++◌, ◌∷◌, [], None, Some, OnErr, OnOk, length};
ghost use Rattle.std.specs.Prelude.{map, slice_set, vec_capacity, vec_len};
ghost use Rattle.hd_hall.specs.Seats.{EachSeat};
ghost use Rattle.hd_serve.specs.Places.{all_in};

use hd_hall::{House, Seat};
use std::alloc::{AllocError, Global};

/// A seat with its share of the ledger.
#[derive(Drop)]
pub(crate) struct SeatWithShare<H: House> {
    seat: Seat<H>,
    ghost part: { seat.parts ≡ 1 },
}

/// The seat of a connection that has ended. It can't be dropped: it is kept (`Places::keep`).
pub(crate) struct ServedSeat<H: House> {
    held: SeatWithShare<H>,
}

impl<H: House> ServedSeat<H> {
    /// A seat that has its share.
    pub(crate) fn new(seat: Seat<H>) -> ServedSeat<H>
        requires { seat.parts ≡ 1 }
        ensures { result.held.seat ≡ seat }
    {
        ServedSeat {
            held: SeatWithShare { seat },
        }
    }
}

/// A place for each seat that may have been opened, by the seats' numbers from 1, and room for a list of
/// them.
#[derive(Drop)]
pub(crate) struct Places<H: House> {
    places: Vec<Option<SeatWithShare<H>>>,
    seats: Vec<Seat<H>>,
    ghost empty: { seats.items ≡ [] },
    ghost room: { vec_len places ≤ vec_capacity seats },
}

impl<H: House> Places<H> {
    /// No places.
    pub(crate) fn new(alloc: Global) -> Places<H> {
        Places {
            places: Vec::new(alloc),
            seats: Vec::new(alloc),
        }
    }

    /// Makes room to keep one seat more.
    ///
    /// # Errors
    /// Out of memory. There is no place more then.
    pub(crate) fn add(&mut self) -> Result<(), AllocError>
        ensures ok { OnOk result (self.new.places.items ≡ self.old.places.items ++ None ∷ []) }
        ensures err { OnErr result (self.new.places.items ≡ self.old.places.items) }
    {
        let count = self.places.len().saturating_add(1);
        self.seats.reserve(count)?;
        self.places.push(None)?;
        Ok(())
    }

    /// Keeps a seat in its place. There is one, since room is made before each seat is opened.
    pub(crate) fn keep(&mut self, served: ServedSeat<H>)
        // the seat of number n is at place n, from 1, and all others are where they were
        ensures kept { served.held.seat.number - 1 < length self.old.places.items → self.new.places.items
            ≡ slice_set self.old.places.items (served.held.seat.number - 1) (Some served.held) }
        ensures none { length self.old.places.items ≤ served.held.seat.number - 1 → self.new.places.items
            ≡ self.old.places.items }
    {
        let ServedSeat { held } = served;
        let number = held.seat.number().number() as usize;
        if let Some(place) = self.places.get_mut(number.saturating_sub(1)) {
            *place = Some(held);
        }
    }

    /// The seats, in the order of their numbers. It takes no memory.
    pub(crate) fn into_seats(self) -> Vec<Seat<H>>
        ensures seats { result.items ≡ map (λ held. held.seat) (all_in self.places.items) }
        ensures parts { EachSeat result.items (λ s. s.parts ≡ 1) }
    {
        let Places { places, mut seats } = self;
        for place in places {
            if let Some(held) = place {
                add_seat(&mut seats, held);
            }
        }
        seats
    }
}

/// Adds a seat to a list that has room for it.
fn add_seat<H: House>(seats: &mut Vec<Seat<H>>, held: SeatWithShare<H>)
    requires parts { EachSeat seats.old.items (λ s. s.parts ≡ 1) }
    requires room { vec_len seats.old < vec_capacity seats.old }
    ensures parts { EachSeat seats.new.items (λ s. s.parts ≡ 1) }
    ensures items { seats.new.items ≡ seats.old.items ++ held.seat ∷ [] }
    ensures len { vec_len seats.new ≡ vec_len seats.old + 1 }
    ensures capacity { vec_capacity seats.new ≡ vec_capacity seats.old }
{
    let SeatWithShare { seat } = held;
    seats.push_reserved(seat);
}
