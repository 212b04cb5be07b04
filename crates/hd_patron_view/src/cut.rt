//! What is cut from a list, item by item.

ghost use Rattle.std.specs.Prelude.{◌≡◌, ◌-◌, ◌∷◌, List, drop};
ghost use Rattle.hd_rules.specs.declared.views.ListItem.{ListItem};
ghost use Rattle.hd_rules.specs.Views.{as_far_as};
ghost use Rattle.hd_patron_view.specs.Cutting.{filled, topped_up};

use arrayvec::ArrayVec;
use hd_rules::{ListItem, Wanted};

/// What is cut from a list: the first `skip` items are passed over, and of the rest the first `left` are
/// taken, or all where that is `None`.
#[derive(Clone, Copy)]
pub(crate) struct Cut {
    skip: u32,
    left: Option<u32>,
}

impl Cut {
    /// What is wanted: the items before the first are passed over, and the last of them is the last.
    pub(crate) fn of(wanted: &Wanted) -> Cut
        ensures { (items : List ListItem) → as_far_as result.left (drop result.skip items)
            ≡ drop (wanted.now.first - 1) (as_far_as wanted.now.last items) }
    {
        let skip = wanted.first.saturating_sub(1);
        let left = match wanted.last {
            Some(last) => Some(last.saturating_sub(skip)),
            None => None,
        };
        Cut { skip, left }
    }

    /// Takes the next item of the list, where it is wanted and there is room for it.
    pub(crate) fn take<const N: usize>(&mut self, item: ListItem, items: &mut ArrayVec<ListItem, N>)
        ensures { (rest : List ListItem) → filled N self.new items.new.items rest
            ≡ filled N self.old items.old.items (item ∷ rest) }
    {
        if self.skip > 0 {
            self.skip -= 1;
        } else if let Some(left) = self.left {
            if left > 0 {
                self.left = Some(left - 1);
                put(item, items);
            }
        } else {
            put(item, items);
        }
    }
}

/// Puts the item after the others, where there is room for it.
fn put<const N: usize>(item: ListItem, items: &mut ArrayVec<ListItem, N>)
    ensures { (rest : List ListItem) → topped_up N items.new.items rest
        ≡ topped_up N items.old.items (item ∷ rest) }
{
    if !items.is_full() {
        items.push(item);
    }
}
