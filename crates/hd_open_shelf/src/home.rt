//! The copies of a title with one home.

use hd_rules::{BranchNo, TitleNo};

/// A title and the home branch of some of its copies.
#[derive(Clone, Copy, PartialEq, Eq, Hash, Debug)]
pub(crate) struct Home {
    /// The title.
    pub(crate) title: TitleNo,
    /// The home branch.
    pub(crate) branch: BranchNo,
}
