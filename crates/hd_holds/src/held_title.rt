//! What patrons have holds of.
ghost use Rattle.std.specs.Prelude.{◌≡◌};
ghost use Rattle.hd_holds.specs.HeldTitles.{held_title, is_before};

use hd_rules::{Hold, PatronNo, TitleNo};

/// A title of which a patron has a hold, with the hold's stamp.
#[derive(Clone, Copy, PartialEq, Eq, Debug)]
pub struct HeldTitle {
    /// The number of the command that added the hold.
    pub stamp: u64,
    /// Whose hold it is.
    pub patron: PatronNo,
    /// The title that is held.
    pub title: TitleNo,
}

impl HeldTitle {
    /// That of a hold of the title.
    pub(crate) fn of_hold(title: TitleNo, hold: &Hold) -> HeldTitle
        ensures { result ≡ held_title title hold.now }
    {
        HeldTitle {
            patron: hold.patron,
            stamp: hold.stamp,
            title,
        }
    }

    /// Whether it is before the other: the lower patron is, then the lower stamp, then the lower title.
    pub(crate) fn is_before(&self, other: &HeldTitle) -> bool
        ensures { result ≡ is_before self.now other.now }
    {
        if self.patron != other.patron {
            self.patron < other.patron
        } else if self.stamp != other.stamp {
            self.stamp < other.stamp
        } else {
            self.title < other.title
        }
    }
}
