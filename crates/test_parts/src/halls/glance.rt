//! What a look at a patron takes down.

use crate::comparing::hold;
use crate::library::{COPIES, TITLES, present};
use hd_desk::Desk;
use hd_journal::{Journal, Look};
use hd_rules::{CopyState, PatronNo};
use std::alloc::Global;

/// How many of a patron's holds are kept, how many wait, and whether that agrees with all copies and holds of
/// the same desk; and how many turns there are. Of a patron that isn't seen it doesn't agree.
#[derive(Clone, Copy)]
pub(crate) struct Seen {
    pub(crate) kept: u32,
    pub(crate) waiting: u32,
    pub(crate) is_whole: bool,
    pub(crate) turns: usize,
}

/// A look at a patron of this name, and what it saw.
#[derive(Clone, Copy)]
pub(crate) struct Glance {
    patron: &'static [u8],
    pub(crate) seen: Seen,
}

impl Glance {
    /// Before the look.
    pub(crate) fn at(patron: &'static [u8]) -> Glance {
        Glance {
            patron,
            seen: Seen {
                kept: 0,
                waiting: 0,
                is_whole: false,
                turns: 0,
            },
        }
    }
}

impl Look<Global> for Glance {
    ghost fits = { λ glance contents. Unit {0} };

    ghost saw = { λ old book new. Unit {0} };

    fn look(&mut self, journal: &Journal) {
        if let Some(seen) = seen_in(journal, self.patron) {
            self.seen = seen;
        }
    }
}

/// What a journal shows of a patron.
fn seen_in(journal: &Journal, patron: &[u8]) -> Option<Seen> {
    let desk = journal.desk();
    let number = desk.catalogue().patron(patron)?;
    let view = hd_patron_view::view(desk, number, present()?.day());
    let holds = holds(desk, patron);
    Some(Seen {
        kept: view.kept,
        waiting: view.waiting,
        is_whole: kept(desk, number) == view.kept
            && holds == view.kept.saturating_add(view.waiting),
        turns: journal.front(),
    })
}

/// How many titles the patron holds, by a search of all.
fn holds(desk: &Desk, patron: &[u8]) -> u32 {
    let mut holds: u32 = 0;
    for title in TITLES {
        if hold(desk, title, patron).is_some() {
            holds = holds.saturating_add(1);
        }
    }
    holds
}

/// How many copies are kept for the patron, by a search of all.
fn kept(desk: &Desk, patron: PatronNo) -> u32 {
    let mut kept: u32 = 0;
    for name in COPIES {
        if is_kept(desk, name, patron) {
            kept = kept.saturating_add(1);
        }
    }
    kept
}

/// Whether the copy of this name is kept for the patron.
fn is_kept(desk: &Desk, name: &[u8], patron: PatronNo) -> bool {
    match desk.catalogue().copy(name) {
        Some(copy) => match desk.copy(copy) {
            CopyState::OnHoldShelf(place) => place.patron == patron,
            _ => false,
        },
        None => false,
    }
}
