//! Whether a row of an opening is allowed.
#![tactic(auto, unfolding(crate::specs::Desks::desk_of))]

ghost use Rattle.std.specs.Prelude.{◌≡◌, ◌<◌, ◌↔◌, IfErr, IfOk, IsTrue, OnOk, Some};
ghost use Rattle.hd_rules.specs.Facts.{first_number};
ghost use Rattle.hd_rules.specs.Known.{IsKnownHold, IsKnownRow};
ghost use Rattle.hd_rules.specs.Rows.{IsHome, IsInBounds, MayStand, Waits};
ghost use Rattle.hd_holds.specs.Held.{IsStampOf};
ghost use Rattle.hd_desk.specs.Desks.{desk_of, facts};
ghost use Rattle.hd_desk.specs.Rows.{IsCause, IsCauseOfCopy, IsCauseOfPair, IsPair};

use crate::desk::Desk;
use crate::open_fault::RowFault;
use hd_rules::{CopyNo, CopyState, Hold, OpeningRow, PatronNo};
use std::alloc::Allocator;

impl<A: Allocator + Copy> Desk<A> {
    /// Whether the row is allowed here, and why not otherwise. It takes no memory.
    ///
    /// # Errors
    /// `NoHold` where the copy is for a patron without a hold of its title, and otherwise `Twice`.
    pub(crate) fn judge(&self, row: &OpeningRow) -> Result<(), RowFault>
        requires known { IsKnownRow (facts self.now) row.now }
        requires bounds { IsInBounds (first_number (facts self.now)) row.now }
        ensures ok { OnOk result
            (MayStand (facts self.now) (desk_of self.now) (first_number (facts self.now)) row.now) }
        ensures err { IfErr result (IsCause (facts self.now) (desk_of self.now) row.now) }
    {
        match *row {
            OpeningRow::Loan { copy, .. } => self.judge_copy(copy),
            OpeningRow::OpenShelf { copy, branch } => {
                self.judge_copy(copy)?;
                if branch == self.home(copy) {
                    return Err(RowFault::Twice);
                }
                Ok(())
            }
            OpeningRow::Transit { copy, .. } => self.judge_copy(copy),
            OpeningRow::Hold { title, hold } => {
                if self.hold(title, hold.patron).is_some() {
                    return Err(RowFault::Twice);
                }
                if self.holds.has_stamp(title, hold.stamp) {
                    return Err(RowFault::Twice);
                }
                Ok(())
            }
            OpeningRow::HoldShelf {
                copy,
                patron,
                place,
            } => {
                let hold = self.judge_pair(copy, patron)?;
                if self.copies.at(hold.pickup, place).is_some() {
                    return Err(RowFault::Twice);
                }
                Ok(())
            }
            OpeningRow::HoldTransit { copy, patron, .. } => {
                self.judge_pair(copy, patron)?;
                Ok(())
            }
        }
    }

    /// Whether no row has placed the copy.
    fn judge_copy(&self, copy: CopyNo) -> Result<(), RowFault>
        requires { copy < (facts self.now).copies }
        ensures ok { OnOk result (IsHome (facts self.now) (desk_of self.now) copy) }
        ensures err { IfErr result (IsCauseOfCopy (facts self.now) (desk_of self.now) copy) }
    {
        if self.is_home(copy) {
            Ok(())
        } else {
            Err(RowFault::Twice)
        }
    }

    /// The patron's hold of the copy's title, where the copy may be for it.
    ///
    /// # Errors
    /// `NoHold` where there is none, and otherwise `Twice`.
    fn judge_pair(&self, copy: CopyNo, patron: PatronNo) -> Result<Hold, RowFault>
        requires { copy < (facts self.now).copies }
        ensures ok { IfOk result (IsPair (facts self.now) (desk_of self.now) copy patron) }
        ensures err { IfErr result (IsCauseOfPair (facts self.now) (desk_of self.now) copy patron) }
    {
        let title = self.title_of(copy);
        let Some(hold) = self.hold(title, patron) else {
            return Err(RowFault::NoHold);
        };
        if !self.is_home(copy) {
            return Err(RowFault::Twice);
        }
        if hold.copy.is_some() {
            return Err(RowFault::Twice);
        }
        Ok(hold)
    }

    /// Whether the copy is on the open shelf of its home, as before any row.
    fn is_home(&self, copy: CopyNo) -> bool
        requires { copy < (facts self.now).copies }
        ensures { IsTrue result ↔ IsHome (facts self.now) (desk_of self.now) copy }
    {
        match self.copy(copy) {
            CopyState::Shelf(branch) => branch == self.home(copy),
            CopyState::OnLoan(_) => false,
            CopyState::OnHoldShelf(_) => false,
            CopyState::InTransit(_) => false,
        }
    }

    /// The patron's hold of the copy's title, which is there.
    pub(crate) fn waiting(&self, copy: CopyNo, patron: PatronNo) -> Hold
        requires copy { copy < (facts self.now).copies }
        requires waits { Waits (facts self.now) (desk_of self.now) copy patron }
        ensures is { (desk_of self.now).hold ((facts self.now).title_of copy) patron ≡ Some result }
        ensures known { IsKnownHold (facts self.now) result }
        ensures title { (facts self.now).title_of copy < (facts self.now).titles }
    {
        self.hold(self.title_of(copy), patron).unwrap()
    }
}
