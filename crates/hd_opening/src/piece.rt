//! The values of a line as it is written.

use hd_rules::{BranchNo, CopyNo, Day, PatronNo, TitleNo};

/// What a hold admits, without the copy.
#[derive(Clone, Copy, PartialEq, Eq, Debug)]
pub(crate) enum Admits {
    /// Any copy of the title.
    Any,
    /// The copies whose home is the pickup branch.
    Branch,
    /// One copy alone.
    Copy,
}

/// A value of a line.
#[derive(Clone, Copy, PartialEq, Eq, Debug)]
pub(crate) enum Piece {
    /// A copy's name.
    Copy(CopyNo),
    /// A patron's name.
    Patron(PatronNo),
    /// A title's name.
    Title(TitleNo),
    /// A branch's name.
    Branch(BranchNo),
    /// A number, in decimal digits.
    Number(u64),
    /// A day, as in `20261125`.
    Day(Day),
    /// What a hold admits.
    Admits(Admits),
    /// Nothing.
    Nothing,
}
