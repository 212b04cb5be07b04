//! Where a copy is, part by part.
ghost use Rattle.std.specs.Prelude.{◌≡◌};
ghost use Rattle.hd_list_pages.specs.Parts.{bare_state, state_parts};

use crate::words::Word;
use hd_rules::{BranchNo, CopyState, Day, PatronNo};

/// Where a copy is, part by part: nothing where a part doesn't apply.
#[derive(Clone, Copy)]
pub(crate) struct StateParts {
    pub(crate) word: Word,
    pub(crate) branch: Option<BranchNo>,
    pub(crate) to: Option<BranchNo>,
    pub(crate) place: Option<u64>,
    pub(crate) patron: Option<PatronNo>,
    pub(crate) due: Option<Day>,
    pub(crate) renewals: Option<u64>,
}

/// A word alone.
fn bare_state(word: Word) -> StateParts
    ensures { result ≡ bare_state word }
{
    StateParts {
        word,
        branch: None,
        to: None,
        place: None,
        patron: None,
        due: None,
        renewals: None,
    }
}

/// Where a copy is.
pub(crate) fn state_parts(state: &CopyState) -> StateParts
    ensures { result ≡ state_parts state.now }
{
    match state {
        CopyState::Shelf(branch) => StateParts {
            branch: Some(*branch),
            ..bare_state(Word::OpenShelf)
        },
        CopyState::OnLoan(loan) => StateParts {
            patron: Some(loan.patron),
            due: Some(loan.due),
            renewals: Some(u64::from(loan.renewals)),
            ..bare_state(Word::OnLoan)
        },
        CopyState::OnHoldShelf(there) => StateParts {
            branch: Some(there.branch),
            place: Some(u64::from(there.place)),
            patron: Some(there.patron),
            ..bare_state(Word::HoldShelf)
        },
        CopyState::InTransit(way) => StateParts {
            branch: Some(way.from),
            to: Some(way.to),
            patron: way.patron,
            ..bare_state(Word::InTransit)
        },
    }
}
