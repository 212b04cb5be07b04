//! The cells of a desk, read and written.
#![tactic(auto, unfolding(crate::specs::Desks::desk_of))]

ghost use Rattle.std.specs.Prelude.{◌≡◌, ◌<◌, ◌≤◌, ◌+◌, ℕ, false, OnOk, OnErr, length};
ghost use Rattle.hd_rules.specs.declared.cells.Cell.{Cell};
ghost use Rattle.hd_rules.specs.declared.cells.Value.{Value};
ghost use Rattle.hd_rules.specs.Desk.{after, put, same_cell, value as value_in};
ghost use Rattle.hd_rules.specs.Known.{IsKnownCell};
ghost use Rattle.hd_rules.specs.Same.{same_value};
ghost use Rattle.hd_rules.specs.Sound.{EachOnIsFit, IsFit};
ghost use Rattle.hd_meter.specs.Meter.{Counts};
ghost use Rattle.hd_inverse.specs.Cells.{AreApart, AreKnownChanges, HaveRoom, MayHave};
ghost use Rattle.hd_inverse.specs.Work.{after_writes};
ghost use Rattle.hd_desk.specs.Desks.{contents, desk_of, facts};
ghost use Rattle.hd_desk.specs.Cells.{HasRoomFor, IsReadyFor};
ghost use Rattle.hd_desk.specs.Rooms.{fewer};

use crate::desk::Desk;
use hd_footprint::{Count, Meter};
use hd_inverse::Cells;
use hd_rules::{Cell, Change, Value, tests_are_exact};
use std::alloc::{AllocError, Allocator};

impl<A: Allocator + Copy> Cells for Desk<A> {
    ghost desk = { desk_of };

    ghost contents = { contents };

    ghost has_room = { HasRoomFor };

    fn get(&self, cell: Cell) -> Value {
        match cell {
            Cell::Copy(copy) => Value::Copy(self.copy(copy)),
            Cell::Hold(title, patron) => Value::Hold(self.hold(title, patron)),
        }
    }

    fn ready(&mut self, changes: &[Change]) -> Result<(), AllocError> {
        for change in changes {
            self.ready_cell(&change.cell, &change.old, changes.len())?;
            self.ready_cell(&change.cell, &change.new, changes.len())?;
        }
        Ok(())
    }

    fn put(&mut self, cell: Cell, value: Value) {
        tests_are_exact();
        if !is_same(&self.get(cell), &value) {
            self.write(&cell, &value);
        }
    }

    ghost fewer = { fewer };
}

impl<A: Allocator + Copy> Desk<A> {
    /// The cell gets this value, once there is room for it. Out of memory, no cell changes.
    pub(crate) fn fill(&mut self, cell: Cell, value: Value) -> Result<(), AllocError>
        requires known { MayHave (facts self.old) cell value }
        requires fit { IsFit (facts self.old) (put (desk_of self.old) cell value) }
        ensures ok { OnOk result (desk_of self.new ≡ put (desk_of self.old) cell value) }
        ensures err { OnErr result (desk_of self.new ≡ desk_of self.old) }
        ensures contents { contents self.new ≡ contents self.old }
    {
        self.ready_cell(&cell, &value, 1)?;
        self.put(cell, value);
        Ok(())
    }

    /// Makes room for that many writes like this one. The end of a hold needs none, nor does the cell's own
    /// value.
    fn ready_cell(&mut self, cell: &Cell, value: &Value, more: usize) -> Result<(), AllocError>
        requires { MayHave (facts self.old) cell.now value.now }
        ensures desk { desk_of self.new ≡ desk_of self.old }
        ensures contents { contents self.new ≡ contents self.old }
        ensures ok { OnOk result (HasRoomFor self.new cell.now value.now more) }
        ensures full { OnErr result (HasRoomFor self.old cell.now value.now more → ⊥) }
        ensures room { (x : Cell) (v : Value) (n : ℕ) → HasRoomFor self.old x v n
            → HasRoomFor self.new x v n }
    {
        if is_same(&self.get(*cell), value) {
            return Ok(());
        }
        match (cell, value) {
            (Cell::Copy(_), Value::Copy(state)) => self.copies.ready(state),
            (Cell::Hold(title, _), Value::Hold(Some(_))) => self.holds.ready(*title, more),
            _ => Ok(()),
        }
    }

    /// The cell gets this value, which it may have already. It takes no memory.
    fn write(&mut self, cell: &Cell, value: &Value)
        requires known { MayHave (facts self.old) cell.now value.now }
        requires room { IsReadyFor self.old cell.now value.now 1 }
        requires fit { IsFit (facts self.old) (put (desk_of self.old) cell.now value.now) }
        ensures desk { desk_of self.new ≡ put (desk_of self.old) cell.now value.now }
        ensures contents { contents self.new ≡ contents self.old }
        ensures room { (x : Cell) (v : Value) (n : ℕ) → IsReadyFor self.old x v (n + 1)
            → IsReadyFor self.new x v n }
    {
        match (cell, value) {
            (Cell::Copy(copy), Value::Copy(state)) => self.copies.put(*copy, state),
            (Cell::Hold(title, patron), Value::Hold(held)) => {
                self.holds.put(*title, *patron, held);
            }
            _ => unreachable!(),
        }
    }

    /// Makes the changes, one after another. It takes no memory.
    pub(crate) fn make(&mut self, changes: &[Change], meter: &mut Meter)
        requires known { AreKnownChanges (facts self.old) changes.now }
        requires apart { AreApart changes.now }
        requires room { HaveRoom (HasRoomFor self.old) (length changes.now) changes.now }
        requires fit { EachOnIsFit (facts self.old) changes.now (desk_of self.old) }
        ensures desk { desk_of self.new ≡ after changes.now (desk_of self.old) }
        ensures contents { contents self.new ≡ contents self.old }
        ensures meter { meter.new ≡ after_writes (length changes.now) meter.old }
    {
        for change in changes {
            self.put(change.cell, change.new);
            meter.add(Count::Written);
        }
    }
}

/// Whether the values are equal.
fn is_same(one: &Value, other: &Value) -> bool
    ensures { result ≡ same_value one.now other.now }
{
    one == other
}
