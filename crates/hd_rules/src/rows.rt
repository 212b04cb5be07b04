//! The rows of a file that say with which desk a journal opens.

use crate::copies::Loan;
use crate::holds::Hold;
use crate::numbers::{BranchNo, CopyNo, PatronNo, TitleNo};

/// What a row of an opening says: in what the desk differs from one with each copy at home and no holds
/// (docs/desk-rules.md, "State").
///
/// Which copy a hold has is said by the copy's row. The copy is kept at, or goes to, the hold's pickup.
#[derive(Clone, Copy, PartialEq, Eq, Debug)]
pub enum OpeningRow {
    /// The copy is on loan.
    Loan {
        copy: CopyNo,
        loan: Loan,
    },
    /// The copy is on the open shelf of a branch that isn't its home.
    OpenShelf {
        copy: CopyNo,
        branch: BranchNo,
    },
    /// A hold of the title, which waits for a copy.
    Hold {
        title: TitleNo,
        hold: Hold,
    },
    /// The copy is kept for the patron's hold of its title, at this place of the hold shelf.
    HoldShelf {
        copy: CopyNo,
        patron: PatronNo,
        place: u32,
    },
    /// The copy is on its way to the pickup of the patron's hold of its title.
    HoldTransit {
        copy: CopyNo,
        patron: PatronNo,
        from: BranchNo,
    },
    /// The copy is on its way between two branches, for nobody.
    Transit {
        copy: CopyNo,
        from: BranchNo,
        to: BranchNo,
    },
}
