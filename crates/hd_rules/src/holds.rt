//! Holds.

use crate::numbers::{BranchNo, CopyNo, PatronNo};
use hd_day::Day;

/// Which copies of its title a hold admits (docs/desk-rules.md, "Admits").
#[derive(Clone, Copy, PartialEq, Eq, Debug)]
pub enum HoldKind {
    /// Any copy of the title.
    Any,
    /// This copy alone.
    One(CopyNo),
    /// The copies whose home is the hold's pickup branch.
    AtBranch,
}

/// A patron's hold of a title. Values are laid out as their fields are written, so the widest comes first.
#[derive(Clone, Copy, PartialEq, Eq, Debug)]
pub struct Hold {
    /// The number of the command that added it. Holds of a title are served by rising stamps.
    pub stamp: u64,
    /// Whose hold it is.
    pub patron: PatronNo,
    /// The copies that it admits.
    pub kind: HoldKind,
    /// The last day on which it may be given a copy, if it has one.
    pub expiry: Option<Day>,
    /// The copy that is kept for it or on the way to its pickup.
    pub copy: Option<CopyNo>,
    /// Where its copy is fetched.
    pub pickup: BranchNo,
}
