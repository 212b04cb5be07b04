//! How many copies of a desk aren't on an open shelf.

use hd_catalogue::Catalogue;
use hd_desk::Desk;
use hd_rules::{CopyNo, CopyState};

/// How many copies a library has in each of the places where a patron misses them.
#[derive(Clone, Copy)]
pub struct Away {
    /// On loan.
    pub on_loan: usize,
    /// Kept for a hold.
    pub on_hold_shelves: usize,
    /// On their way between branches.
    pub in_transit: usize,
}

impl Away {
    /// How many copies of a desk are in each of these places.
    pub fn of(desk: &Desk) -> Away {
        let mut away = Away {
            on_loan: 0,
            on_hold_shelves: 0,
            in_transit: 0,
        };
        let catalogue: &Catalogue = desk.catalogue();
        for number in 0..catalogue.copies() {
            let copy = CopyNo::new(number as u32).unwrap();
            away.add(&desk.copy(copy));
        }
        away
    }

    /// Counts a copy of this state.
    fn add(&mut self, state: &CopyState) {
        match state {
            CopyState::Shelf(_) => {}
            CopyState::OnLoan(_) => self.on_loan = self.on_loan.saturating_add(1),
            CopyState::OnHoldShelf(_) => {
                self.on_hold_shelves = self.on_hold_shelves.saturating_add(1);
            }
            CopyState::InTransit(_) => self.in_transit = self.in_transit.saturating_add(1),
        }
    }
}
