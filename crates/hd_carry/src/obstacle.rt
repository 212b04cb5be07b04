//! An obstacle to carrying a desk over.

use hd_rules::{BranchNo, CopyNo, CopyState, PatronNo, TitleNo};

/// Something of a desk that can't be carried over to a new catalogue, by the old catalogue's numbers.
///
/// The new catalogue lacks a copy where it lacks its name, and where that is another title's there.
#[derive(Clone, Copy, PartialEq, Eq, Debug)]
pub enum Obstacle {
    /// A copy that isn't on an open shelf but here, and that the new catalogue lacks.
    MissingCopy {
        copy: CopyNo,
        state: CopyState,
    },
    /// A patron who has a copy on loan, and whom the new catalogue lacks.
    MissingBorrower {
        copy: CopyNo,
        patron: PatronNo,
    },
    /// A patron who holds a title, and whom the new catalogue lacks.
    MissingHolder {
        title: TitleNo,
        patron: PatronNo,
    },
    /// A title that a patron holds, and that the new catalogue lacks.
    MissingTitle {
        title: TitleNo,
        patron: PatronNo,
    },
    /// A branch that has a copy on its open shelf or its hold shelf, and that the new catalogue lacks.
    MissingBranch {
        branch: BranchNo,
        copy: CopyNo,
    },
    /// A branch at an end of a copy's way, which sent the copy or gets it, and that the new catalogue lacks.
    MissingWayEnd {
        branch: BranchNo,
        copy: CopyNo,
    },
    /// A hold's pickup that the new catalogue lacks.
    MissingPickup {
        branch: BranchNo,
        title: TitleNo,
        patron: PatronNo,
    },
    /// A hold that admits one copy alone, which the new catalogue lacks.
    MissingOnlyCopy {
        title: TitleNo,
        patron: PatronNo,
        copy: CopyNo,
    },
    /// So many numbers have been given that too few are left for the new catalogue's commands.
    NumbersUsedUp,
}
