//! The boards of a hold shelf, and how many places of each are free.
ghost use Rattle.std.specs.Prelude.{◌≡◌, ℕ, ◌+◌, ◌-◌, ◌<◌, ◌≤◌, [], max, length, nat_lt, position, vec_len};
ghost use Rattle.std.specs.Prelude.{slice_index, slice_set, OnOk, OnErr};

use std::alloc::{AllocError, Allocator, Global};
use std::marker::Model;

/// How many places a board has, and how many boards a bay.
pub(crate) const SPAN: usize = 128;

/// How many places of each board of a hold shelf are free, from the first board on.
///
/// A bay is `SPAN` boards in a row. How many of its boards have a free place is kept too, so that the first
/// of all boards with one is found by a walk of the bays and of the boards of one bay.
#[derive(Drop)]
pub(crate) struct Boards<A: Allocator = Global> {
    /// How many places of each board are free.
    free_places: Vec<u8, A>,
    /// How many boards of each bay have a free place.
    open_boards: Vec<u8, A>,
}

impl<A: Allocator> Model for Boards<A> {
    ghost use Rattle.std.specs.Prelude.{ℕ, List};
    ghost use Rattle.hd_shelf.specs.Taken.{AreInBays};

    ghost Value = { List ℕ };

    ghost view = { λ b. b.free_places.items };

    ghost invariant = { λ b. AreInBays b.free_places.items b.open_boards.items };
}

impl<A: Allocator + Copy> Boards<A> {
    /// No boards.
    pub(crate) fn new(alloc: A) -> Boards<A>
        ensures { result ≡ [] }
    {
        Boards {
            free_places: Vec::new(alloc),
            open_boards: Vec::new(alloc),
        }
    }
}

impl<A: Allocator> Boards<A> {
    /// The first board that has a free place.
    pub(crate) fn first_open(&self) -> Option<usize>
        ensures { result ≡ position (nat_lt 0) self.now }
    {
        let bay = first_above_zero(self.open_boards.as_slice())?;
        let before = bay * SPAN;
        let board = first_above_zero(&self.free_places.as_slice()[before..])?;
        Some(before + board)
    }

    /// Makes sure that there are at least `boards` boards. Those that are new have no free place.
    ///
    /// Answers `AllocError` where there is no memory for them, and then the boards are unchanged.
    pub(crate) fn grow(&mut self, boards: usize) -> Result<(), AllocError>
        ensures same { (board : ℕ) → slice_index self.new board ≡ slice_index self.old board }
        ensures ok { OnOk result (length self.new ≡ max (length self.old) boards) }
        ensures err { OnErr result (self.new ≡ self.old) }
        ensures full { OnErr result (length self.old < boards) }
    {
        lengthen(&mut self.open_boards, boards.div_ceil(SPAN))?;
        lengthen(&mut self.free_places, boards)?;
        Ok(())
    }

    /// Notes that one more place of a board is free.
    pub(crate) fn raise(&mut self, board: usize)
        requires known { board < length self.old }
        requires taken { slice_index self.old board < SPAN }
        ensures { self.new ≡ slice_set self.old board (slice_index self.old board + 1) }
    {
        let places = self.free_places[board];
        self.free_places[board] = places + 1;
        if places == 0 {
            self.open_boards[board / SPAN] += 1;
        }
    }

    /// Notes that one place fewer of a board is free.
    pub(crate) fn lower(&mut self, board: usize)
        requires known { board < length self.old }
        requires free { 0 < slice_index self.old board }
        ensures { self.new ≡ slice_set self.old board (slice_index self.old board - 1) }
    {
        let places = self.free_places[board] - 1;
        self.free_places[board] = places;
        if places == 0 {
            self.open_boards[board / SPAN] -= 1;
        }
    }
}

/// The first of these counts that isn't 0.
fn first_above_zero(counts: &[u8]) -> Option<usize>
    ensures { result ≡ position (nat_lt 0) counts.now }
{
    counts.iter().position(|count| *count > 0)
}

/// Makes sure that there are at least `many` counts. Those that are new are 0.
fn lengthen<A: Allocator>(counts: &mut Vec<u8, A>, many: usize) -> Result<(), AllocError>
    ensures same { (at : ℕ) → slice_index counts.new.items at ≡ slice_index counts.old.items at }
    ensures ok { OnOk result (vec_len counts.new ≡ max (vec_len counts.old) many) }
    ensures err { OnErr result (counts.new.items ≡ counts.old.items) }
    ensures full { OnErr result (vec_len counts.old < many) }
{
    counts.resize(many.max(counts.len()), 0)
}
