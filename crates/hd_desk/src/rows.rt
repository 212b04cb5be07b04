//! The rows of an opening, put on a desk one after another.
#![tactic(auto)]

ghost use Rattle.std.specs.Prelude.{◌≡◌, ◌<◌, All, IfErr, Some, OnErr, OnOk};
ghost use Rattle.hd_rules.specs.declared.cells.Cell.TheVariants.{Copy as CopyCell, Hold as HoldCell};
ghost use Rattle.hd_rules.specs.declared.cells.Value.TheVariants.{Copy as CopyHas, Hold as HoldHas};
ghost use Rattle.hd_rules.specs.Desk.{put};
ghost use Rattle.hd_rules.specs.Facts.{first_number};
ghost use Rattle.hd_rules.specs.Known.{IsKnownRow};
ghost use Rattle.hd_rules.specs.Rows.{IsInBounds, MayStand, with_row};
ghost use Rattle.hd_rules.specs.Settle.{with_copy};
ghost use Rattle.hd_rules.specs.Sound.{Sound};
ghost use Rattle.hd_desk.specs.Desks.{contents, desk_of, facts};
ghost use Rattle.hd_desk.specs.Rows.{AreTold, CanBeGiven, IsOpenFault};

use crate::desk::Desk;
use crate::open_fault::OpenFault;
use hd_rules::{
    Cell, CopyNo, CopyState, Hold, HoldPlace, OpeningRow, PatronNo, Transit, Value,
    rows_tell_a_sound_desk,
};
use std::alloc::{AllocError, Allocator};

impl<A: Allocator + Copy> Desk<A> {
    /// Puts the rows, one after another. They name things of the desk's catalogue, with numbers in their
    /// bounds, and the desk is sound.
    ///
    /// # Errors
    /// `Row` for the first row that is refused after those before it, and why; `Memory`.
    pub(crate) fn put_rows(&mut self, rows: &[OpeningRow]) -> Result<(), OpenFault>
        requires known { All (IsKnownRow (facts self.old)) rows.now }
        requires bounds { All (IsInBounds (first_number (facts self.old))) rows.now }
        requires sound { Sound (facts self.old) (first_number (facts self.old)) (desk_of self.old) }
        ensures contents { contents self.new ≡ contents self.old }
        ensures ok { OnOk result (AreTold (facts self.old) (desk_of self.old) rows.now (desk_of self.new)) }
        ensures err { IfErr result (IsOpenFault (facts self.old) (desk_of self.old) rows.now) }
    {
        rows_tell_a_sound_desk();
        for (at, row) in rows.iter().enumerate() {
            if let Err(cause) = self.judge(row) {
                return Err(OpenFault::Row { at, cause });
            }
            self.put_row(row)?;
        }
        Ok(())
    }

    /// Puts what an allowed row says into the desk.
    fn put_row(&mut self, row: &OpeningRow) -> Result<(), AllocError>
        requires known { IsKnownRow (facts self.old) row.now }
        requires bounds { IsInBounds (first_number (facts self.old)) row.now }
        requires sound { Sound (facts self.old) (first_number (facts self.old)) (desk_of self.old) }
        requires stands { MayStand (facts self.old) (desk_of self.old)
            (first_number (facts self.old)) row.now }
        ensures contents { contents self.new ≡ contents self.old }
        ensures desk { OnOk result (desk_of self.new
            ≡ with_row (facts self.old).title_of (desk_of self.old) row.now) }
    {
        rows_tell_a_sound_desk();
        match *row {
            OpeningRow::Loan { copy, loan } => {
                self.fill(Cell::Copy(copy), Value::Copy(CopyState::OnLoan(loan)))
            }
            OpeningRow::OpenShelf { copy, branch } => {
                self.fill(Cell::Copy(copy), Value::Copy(CopyState::Shelf(branch)))
            }
            OpeningRow::Transit { copy, from, to } => {
                let patron = None;
                let transit = Transit { from, to, patron };
                self.fill(Cell::Copy(copy), Value::Copy(CopyState::InTransit(transit)))
            }
            OpeningRow::Hold { title, hold } => {
                self.fill(Cell::Hold(title, hold.patron), Value::Hold(Some(hold)))
            }
            OpeningRow::HoldShelf {
                copy,
                patron,
                place,
            } => {
                let hold = self.waiting(copy, patron);
                let branch = hold.pickup;
                let there = HoldPlace {
                    branch,
                    place,
                    patron,
                };
                self.give(copy, patron, CopyState::OnHoldShelf(there), &hold)
            }
            OpeningRow::HoldTransit { copy, patron, from } => {
                let hold = self.waiting(copy, patron);
                let to = hold.pickup;
                let patron_to = Some(patron);
                let transit = Transit {
                    from,
                    to,
                    patron: patron_to,
                };
                self.give(copy, patron, CopyState::InTransit(transit), &hold)
            }
        }
    }

    /// The copy goes there, and the patron's hold of its title gets it.
    fn give(
        &mut self,
        copy: CopyNo,
        patron: PatronNo,
        state: CopyState,
        hold: &Hold,
    ) -> Result<(), AllocError>
        requires { CanBeGiven (facts self.old) (desk_of self.old) copy patron state hold.now }
        ensures contents { contents self.new ≡ contents self.old }
        ensures desk { OnOk result (desk_of self.new ≡ put
            (put (desk_of self.old) (CopyCell copy) (CopyHas state))
            (HoldCell ((facts self.old).title_of copy) patron)
            (HoldHas (Some (with_copy (Some copy) hold.now)))) }
    {
        let title = self.title_of(copy);
        self.fill(Cell::Copy(copy), Value::Copy(state))?;
        let held = Hold {
            copy: Some(copy),
            ..*hold
        };
        self.fill(Cell::Hold(title, patron), Value::Hold(Some(held)))
    }
}
