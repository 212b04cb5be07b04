//! What is known of a copy that is settled, or for which a hold is chosen.

use hd_rules::{BranchNo, CopyNo, CopyState};

/// A copy, where it is, and what the catalogue says of it.
#[derive(Clone, Copy, PartialEq, Eq, Debug)]
pub struct CopyFacts {
    /// The copy.
    pub copy: CopyNo,
    /// Its home branch.
    pub home: BranchNo,
    /// Whether its title has local priority.
    pub priority: bool,
    /// Where it is: whether it has a place on a hold shelf, and the patron that it is tied to, if any.
    pub state: CopyState,
}
