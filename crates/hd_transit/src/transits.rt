//! Transits by copy.
ghost use Rattle.std.specs.Prelude.{◌≡◌, ◌<◌, ℕ, None, IfOk, eqb};
ghost use Rattle.std.specs.List.{list_any};
ghost use Rattle.std.specs.List.Sorted.{IsStrictlyIncreasing};
ghost use Rattle.std.specs.FinMap as map;
ghost use Rattle.hd_transit.specs.TransitsValue.{AreBelow};
ghost use Rattle.hd_transit.specs.Bound.{is_bound_for, bound_from};

use crate::bound::Bound;
use hd_rules::{BranchNo, CopyNo, Transit};
use hd_table::Table;
use std::alloc::{AllocError, Allocator, Global};
use std::marker::Model;

/// The transits of a desk by copy.
///
/// All its room is made by `new`. No other call takes memory.
#[derive(Drop)]
pub struct Transits<A: Allocator = Global> {
    table: Table<Transit, A>,
}

impl<A: Allocator> Model for Transits<A> {
    ghost use Rattle.hd_transit.specs.TransitsValue.{TransitsValue, transits_code, AreCopies};

    ghost Value = { TransitsValue };

    ghost coded = { transits_code };

    ghost view = { λ t. record { transits = t.table.entries; copies = t.table.size } };

    ghost invariant = { λ t. AreCopies t.table.entries t.table.size };
}

impl<A: Allocator> Transits<A> {
    /// No transits, with room for the copies below this number.
    ///
    /// Answers `AllocError` where there is no memory for them.
    pub fn new(alloc: A, copies: u32) -> Result<Transits<A>, AllocError>
        ensures transits { IfOk result (λ made. made.transits ≡ map.empty) }
        ensures copies { IfOk result (λ made. made.copies ≡ copies) }
    {
        let mut table = Table::new(alloc);
        table.grow(copies as usize)?;
        Ok(Transits { table })
    }

    /// Sends a copy on its way.
    pub fn send(&mut self, copy: CopyNo, transit: Transit)
        requires free { map.get self.old.transits copy ≡ None }
        requires copy { copy < self.old.copies }
        ensures transits { self.new.transits ≡ map.insert self.old.transits copy transit }
        ensures copies { self.new.copies ≡ self.old.copies }
    {
        self.table.set(copy.number() as usize, transit);
    }

    /// Ends the transit of a copy and hands it out, if there is one.
    pub fn arrive(&mut self, copy: CopyNo) -> Option<Transit>
        ensures arrived { result ≡ map.get self.old.transits copy }
        ensures within { AreBelow self.old.transits self.old.copies }
        ensures transits { self.new.transits ≡ map.remove self.old.transits copy }
        ensures copies { self.new.copies ≡ self.old.copies }
    {
        self.table.take(copy.number() as usize)
    }

    /// The copies on their way to a branch, each once, by rising number.
    pub fn bound_for(&self, to: BranchNo) -> Bound<'_, A>
        ensures value { result ≡ bound_from self.now.transits self.now.copies to 0 }
        ensures exact { (copy : ℕ) → list_any (eqb copy) result
            ≡ is_bound_for to (map.get self.now.transits copy) }
        ensures rising { IsStrictlyIncreasing result }
    {
        Bound::new(&self.table, to)
    }
}
