//! Holds marked by their pickups.
ghost use Rattle.std.specs.Prelude.{◌≡◌};

use hd_chunks::Marking;
use hd_rules::{BranchNo, Hold};

/// A hold's mark is the number of its pickup, so that a walk for the holds of one branch passes over chunks
/// that have none.
pub(crate) struct ByPickup;

impl ByPickup {
    /// The mark of the holds of this pickup.
    pub(crate) fn mark_of(pickup: BranchNo) -> usize
        ensures { result ≡ pickup }
    {
        pickup.number() as usize
    }
}

impl Marking<Hold> for ByPickup {
    ghost mark = { λ hold. hold.pickup };

    fn mark(hold: &Hold) -> usize {
        ByPickup::mark_of(hold.pickup)
    }
}
