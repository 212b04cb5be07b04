//! The result of settling a copy.

use hd_rules::{CopyState, Hold};

/// Where a copy goes, and the hold that gets it, if one does.
#[derive(Clone, Copy, PartialEq, Eq, Debug)]
pub struct Settled {
    /// Where the copy goes.
    pub state: CopyState,
    /// The hold that had no copy and gets this one. A hold that the copy was tied to keeps it.
    pub gets: Option<Allotment>,
}

/// A hold that gets a copy.
#[derive(Clone, Copy, PartialEq, Eq, Debug)]
pub struct Allotment {
    /// The hold that its patron has of the title.
    pub old: Option<Hold>,
    /// The same with the copy.
    pub new: Hold,
}
