//! Cells that can be written.
ghost use Rattle.std.specs.Prelude.{◌≡◌, ◌+◌, ◌≤◌, ℕ, false, OnErr, OnOk, length};
ghost use Rattle.hd_rules.specs.declared.cells.Cell.{Cell};
ghost use Rattle.hd_rules.specs.declared.cells.Value.{Value};
ghost use Rattle.hd_rules.specs.Desk.{Desk, put as with_value, same_cell, value as value_in};
ghost use Rattle.hd_rules.specs.Sound.{IsFit};
ghost use Rattle.hd_catalogue.specs.Contents.{Contents, facts_of};
ghost use Rattle.hd_rules.specs.Known.{IsKnownCell};
ghost use Rattle.hd_inverse.specs.Cells.{AreKnownChanges, HaveRoom, MayHave};

use hd_rules::{Cell, Change, Value};
use std::alloc::AllocError;

/// The cells of a desk (docs/desk-rules.md, "State"), each of which can be read and written.
///
/// Only `ready` takes memory. What it makes room for stays ready until it is written.
pub trait Cells {
    /// The desk that the cells are.
    ghost desk: { Self → Desk };

    /// What the catalogue says, of whose titles, patrons and copies there are cells.
    ghost contents: { Self → Contents };

    /// There is room for that many writes like this one. A cell's own value needs none.
    ghost has_room: { Self → Cell → Value → ℕ → Type 0 };

    /// What the cell has.
    fn get(&self, cell: Cell) -> Value
        requires { IsKnownCell (facts_of (contents self.now)) cell }
        ensures value { result ≡ value_in (desk self.now) cell }
        ensures known { MayHave (facts_of (contents self.now)) cell result };

    /// Makes room for putting each change's old or new value once. It changes no cell, and gives no room up.
    ///
    /// # Errors
    /// Out of memory. Where there is such room already, it succeeds.
    fn ready(&mut self, changes: &[Change]) -> Result<(), AllocError>
        requires { AreKnownChanges (facts_of (contents self.old)) changes.now }
        ensures desk { desk self.new ≡ desk self.old }
        ensures contents { contents self.new ≡ contents self.old }
        ensures ok { OnOk result (HaveRoom (has_room self.new) (length changes.now) changes.now) }
        ensures full { OnErr result (HaveRoom (has_room self.old) (length changes.now) changes.now → ⊥) }
        ensures room { (x : Cell) (v : Value) (n : ℕ) → has_room self.old x v n → has_room self.new x v n };

    /// The cell gets this value, and every other cell stays. It takes no memory, and leaves the room for
    /// other cells but for one write.
    fn put(&mut self, cell: Cell, value: Value)
        requires known { MayHave (facts_of (contents self.old)) cell value }
        requires room { has_room self.old cell value 1 }
        requires fit { IsFit (facts_of (contents self.old)) (with_value (desk self.old) cell value) }
        ensures desk { desk self.new ≡ with_value (desk self.old) cell value }
        ensures contents { contents self.new ≡ contents self.old }
        ensures room { (x : Cell) (v : Value) (n : ℕ) → same_cell cell x ≡ false
            → has_room self.old x v (n + 1) → has_room self.new x v n };

    /// Room for more writes is room for fewer.
    ghost fewer: { (c : Self) (x : Cell) (v : Value) (m n : ℕ) → m ≤ n → has_room c x v n
        → has_room c x v m };
}
