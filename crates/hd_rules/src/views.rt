//! What is reported of a patron: the state of their loans and holds, and the items of a list of them.

use crate::holds::Hold;
use crate::numbers::{CopyNo, TitleNo};

/// A hold of a patron's list, with its title.
#[derive(Clone, Copy, PartialEq, Eq, Debug)]
pub struct TitleHold {
    /// What is held.
    pub title: TitleNo,
    /// The hold.
    pub hold: Hold,
}

/// Whether a patron may borrow another copy (docs/desk-rules.md, "Room").
#[derive(Clone, Copy, PartialEq, Eq, Debug)]
pub enum Borrowing {
    /// Never: their loan limit is 0.
    Denied,
    /// Not now: they have as many loans as their limit allows, which isn't 0.
    TooMany,
    /// They have room.
    Allowed,
}

/// The state of a patron's loans and holds at one moment of the desk (docs/desk-rules.md, "What a patron
/// has").
#[derive(Clone, Copy, PartialEq, Eq, Debug)]
pub struct PatronView {
    /// How many copies are on loan to them.
    pub charged: u32,
    /// How many of these are due before the day of the view.
    pub overdue: u32,
    /// How many of their holds have a copy that stands on a hold shelf.
    pub kept: u32,
    /// How many other holds they have: those that wait, those past their day, those whose copy is in transit.
    pub waiting: u32,
    /// Whether they may borrow.
    pub borrowing: Borrowing,
    /// How many copies may be on loan to them at once.
    pub loan_limit: u32,
}

/// Which list of a patron's is wanted.
#[derive(Clone, Copy, PartialEq, Eq, Debug)]
pub enum Summary {
    /// The copies that are kept for their holds.
    HoldItems,
    /// The copies that are overdue.
    OverdueItems,
    /// The copies that are on loan to them.
    ChargedItems,
    /// The titles of their other holds.
    UnavailableHolds,
    /// A list that has no items, as that of their fines.
    Empty,
}

/// The part of a list that is wanted.
#[derive(Clone, Copy, PartialEq, Eq, Debug)]
pub struct Wanted {
    /// Of which list.
    pub summary: Summary,
    /// The first item, counted from 1; 0 is taken for 1.
    pub first: u32,
    /// The last item, counted from 1; where there is none, the last of the list.
    pub last: Option<u32>,
}

/// An item of a list.
#[derive(Clone, Copy, PartialEq, Eq, Debug)]
pub enum ListItem {
    /// A copy.
    Copy(CopyNo),
    /// A title.
    Title(TitleNo),
}

impl Default for ListItem {
    ghost use Rattle.std.specs.Prelude.{◌≡◌};
    ghost use Rattle.hd_rules.specs.declared.views.ListItem.TheVariants.{Title};

    ghost is_default = { λ item. item ≡ Title 0 };

    /// The first title. It fills the unused places of a page.
    fn default() -> ListItem {
        ListItem::Title(TitleNo::new(0).unwrap())
    }
}
