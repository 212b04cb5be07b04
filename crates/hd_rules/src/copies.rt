//! Where a copy can be.

use crate::numbers::{BranchNo, PatronNo};
use hd_day::Day;

/// A loan of a copy.
#[derive(Clone, Copy, PartialEq, Eq, Debug)]
pub struct Loan {
    /// Who has the copy.
    pub patron: PatronNo,
    /// The day on which it is due.
    pub due: Day,
    /// How often the loan was renewed.
    pub renewals: u32,
}

/// A copy's place on a hold shelf.
#[derive(Clone, Copy, PartialEq, Eq, Debug)]
pub struct HoldPlace {
    /// The branch of the hold shelf.
    pub branch: BranchNo,
    /// The place on it, from 1.
    pub place: u32,
    /// Who it is kept for.
    pub patron: PatronNo,
}

/// A copy's way between branches.
#[derive(Clone, Copy, PartialEq, Eq, Debug)]
pub struct Transit {
    /// The branch that sent it.
    pub from: BranchNo,
    /// The branch that it goes to.
    pub to: BranchNo,
    /// Who it is for, if it goes to a hold's pickup.
    pub patron: Option<PatronNo>,
}

/// Where a copy is (docs/desk-rules.md, "State").
#[derive(Clone, Copy, PartialEq, Eq, Debug)]
pub enum CopyState {
    /// On the open shelf of a branch.
    Shelf(BranchNo),
    /// On loan.
    OnLoan(Loan),
    /// On a hold shelf.
    OnHoldShelf(HoldPlace),
    /// Between two branches.
    InTransit(Transit),
}
