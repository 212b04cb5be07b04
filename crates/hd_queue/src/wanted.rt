//! Which holds of a list are wanted.
ghost use Rattle.std.specs.Prelude.{◌≡◌};
ghost use Rattle.hd_queue.specs.Wanted.{wants_at, wants_hold};

use hd_rules::{BranchNo, CopyNo, Hold, HoldKind};

/// Which holds of a list are wanted.
#[derive(Clone, Copy)]
pub(crate) enum Wanted {
    /// All of them.
    All,
    /// Those of this copy alone.
    Naming(CopyNo),
}

impl Wanted {
    /// Whether the hold is wanted.
    fn admits(&self, hold: &Hold) -> bool
        ensures { result ≡ wants_hold self.now hold.now }
    {
        match *self {
            Wanted::All => true,
            Wanted::Naming(copy) => match hold.kind {
                HoldKind::One(named) => named == copy,
                HoldKind::Any | HoldKind::AtBranch => false,
            },
        }
    }

    /// Whether the hold is wanted, and its pickup is this branch, if one is given.
    pub(crate) fn admits_at(&self, pickup: Option<BranchNo>, hold: &Hold) -> bool
        ensures { result ≡ wants_at self.now pickup hold.now }
    {
        match pickup {
            Some(branch) => self.admits(hold) && hold.pickup == branch,
            None => self.admits(hold),
        }
    }
}
