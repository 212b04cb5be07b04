//! The places of a hold shelf.
ghost use Rattle.std.specs.Prelude.{◌≡◌, ◌≤◌, ◌<◌, ◌+◌, ℕ, max, None, IsSome, OnOk, OnErr};
ghost use Rattle.std.specs.FinMap as map;
ghost use Rattle.hd_rules.specs.declared.limits.TheConstants.{MOST_COPIES};
ghost use Rattle.hd_shelf.specs.Shelf.{IsShelf, IsReady, LeastFree, StandsNowhere};

use crate::boards::{Boards, SPAN};
use hd_rules::{CopyNo, MOST_COPIES};
use hd_table::Table;
use std::alloc::{AllocError, Allocator, Global};
use std::marker::Model;

/// The copies on the hold shelf of a branch by place. Places count from 1.
///
/// Only `ready` takes memory. The free places are counted by boards of 128 places and by bays of 128 boards:
/// `put` and `take` change one or two counts, and `least_free` walks the bays, the boards of one bay and the
/// places of one board.
#[derive(Drop)]
pub struct Places<A: Allocator = Global> {
    table: Table<CopyNo, A>,
    /// How many places of each board have room and no copy. The first board begins with place 1.
    boards: Boards<A>,
}

impl<A: Allocator> Model for Places<A> {
    ghost use Rattle.std.specs.Prelude.{◌-◌};
    ghost use Rattle.hd_shelf.specs.PlacesValue.{PlacesValue, places_code};
    ghost use Rattle.hd_shelf.specs.Shelf.{IsCountedByBoard};

    ghost Value = { PlacesValue };

    ghost coded = { places_code };

    ghost view = { λ p. record { copies = p.table.entries; room = p.table.size - 1 } };

    ghost invariant = { λ p. IsCountedByBoard p.table.entries (p.table.size - 1) p.boards };
}

impl<A: Allocator + Copy> Places<A> {
    /// A shelf without copies and without room.
    pub fn new(alloc: A) -> Places<A>
        ensures copies { result.copies ≡ map.empty }
        ensures room { result.room ≡ 0 }
    {
        Places {
            table: Table::new(alloc),
            boards: Boards::new(alloc),
        }
    }
}

impl<A: Allocator> Places<A> {
    /// The least place at which no copy stands (docs/desk-rules.md, "Place").
    ///
    /// There are at most 1,000,000 copies, so it is at most 1,000,001.
    pub fn least_free(&self) -> u32
        ensures least { LeastFree self.now.copies result }
        ensures bound { result ≤ MOST_COPIES + 1 }
    {
        let room = self.room();
        match self.boards.first_open() {
            Some(board) => self.free_after(board * SPAN) as u32,
            None => room as u32 + 1,
        }
    }

    /// Makes room for a copy at this place and at each lower one.
    ///
    /// Answers `AllocError` where there is no memory for it, and then the shelf is unchanged. It never does
    /// so for a place that has room.
    pub fn ready(&mut self, place: u32) -> Result<(), AllocError>
        requires { 1 ≤ place }
        ensures copies { self.new.copies ≡ self.old.copies }
        ensures ok { OnOk result (self.new.room ≡ max self.old.room place) }
        ensures err { OnErr result (self.new.room ≡ self.old.room) }
        ensures full { OnErr result (self.old.room < place) }
    {
        let room = self.room();
        let last = place as usize;
        if room < last {
            self.boards.grow(last.div_ceil(SPAN))?;
            self.table.grow(last + 1)?;
            for others in room..last {
                self.boards.raise(others / SPAN);
            }
        }
        Ok(())
    }

    /// Puts a copy at a place.
    pub fn put(&mut self, place: u32, copy: CopyNo)
        requires ready { IsReady self.old.room place }
        requires free { map.get self.old.copies place ≡ None }
        requires nowhere { StandsNowhere self.old.copies copy }
        ensures copies { self.new.copies ≡ map.insert self.old.copies place copy }
        ensures room { self.new.room ≡ self.old.room }
    {
        prove!(copy.number() < MOST_COPIES);
        self.boards.lower((place as usize - 1) / SPAN);
        self.table.set(place as usize, copy);
    }

    /// Takes the copy at a place away and hands it out, if there is one.
    pub fn take(&mut self, place: u32) -> Option<CopyNo>
        ensures taken { result ≡ map.get self.old.copies place }
        ensures copies { self.new.copies ≡ map.remove self.old.copies place }
        ensures room { self.new.room ≡ self.old.room }
    {
        let copy = self.table.take(place as usize)?;
        self.boards.raise((place as usize - 1) / SPAN);
        Some(copy)
    }

    /// The copy at a place, if there is one.
    pub fn at(&self, place: u32) -> Option<CopyNo>
        ensures value { result ≡ map.get self.now.copies place }
        ensures shelf { IsShelf self.now.copies }
    {
        self.table.get(place as usize).copied()
    }

    /// The greatest place that has room, or 0.
    fn room(&self) -> usize
        ensures room { result ≡ self.now.room }
        ensures next { result < usize.MAX }
    {
        self.table.size().saturating_sub(1)
    }

    /// The least free place after the first `others` places. Where no later place with room is free,
    /// it is the first one without room.
    fn free_after(&self, others: usize) -> usize
        ensures from_one { 1 ≤ result }
        ensures free { map.get self.now.copies result ≡ None }
        ensures taken { (p : ℕ) → others < p → p < result → IsSome (map.get self.now.copies p) }
        ensures within { result ≤ self.now.room + 1 }
    {
        let room = self.room();
        for below in others..room {
            if self.table.get(below + 1).is_none() {
                return below + 1;
            }
        }
        room + 1
    }
}
