//! A page of a list of a patron's.

ghost use Rattle.std.specs.Prelude.{◌≡◌, ◌<◌, All, filter_map, map, take, ℕ};
ghost use Rattle.hd_rules.specs.declared.views.ListItem.TheVariants.{Copy as CopyItem};
ghost use Rattle.hd_rules.specs.Views.{page};
ghost use Rattle.hd_holds.specs.declared.held_title.HeldTitle.{HeldTitle};
ghost use Rattle.hd_desk.specs.Desks.{desk_of, facts};
ghost use Rattle.hd_patron_view.specs.Cutting.{filled};
ghost use Rattle.hd_patron_view.specs.Held.{kept_copy, overdue_copy, waiting_title};

use crate::cut::Cut;
use crate::having::{held, kept_copy, lent, overdue_copy, waiting_title};
use arrayvec::ArrayVec;
use hd_desk::{Desk, HeldTitle, LentCopies};
use hd_rules::{Day, ListItem, PatronNo, Summary, Wanted};
use std::alloc::Allocator;

/// Puts the wanted items of a list of the patron's into the page, as many as it has room for. They replace
/// what the page had before. It reads the patron's own loans or holds alone, and takes no memory.
pub fn page<A: Allocator + Copy, const N: usize>(
    desk: &Desk<A>,
    patron: PatronNo,
    day: Day,
    wanted: &Wanted,
    items: &mut ArrayVec<ListItem, N>,
)
    ensures { items.new.items ≡ take N (page (facts desk.now) (desk_of desk.now) patron day wanted.now) }
{
    items.clear();
    let cut = Cut::of(wanted);
    match wanted.summary {
        Summary::HoldItems => list_kept(desk, patron, held(desk, patron), cut, items),
        Summary::OverdueItems => list_overdue(desk, day, lent(desk, patron), cut, items),
        Summary::ChargedItems => list_charged(lent(desk, patron), cut, items),
        Summary::UnavailableHolds => list_waiting(desk, patron, held(desk, patron), cut, items),
        Summary::Empty => {}
    }
}

/// Lists the copies.
fn list_charged<A: Allocator, const N: usize>(
    copies: LentCopies<'_, A>,
    mut cut: Cut,
    items: &mut ArrayVec<ListItem, N>,
)
    ensures { items.new.items ≡ filled N cut items.old.items (map CopyItem copies.entry) }
{
    for copy in copies {
        cut.take(ListItem::Copy(copy), items);
    }
}

/// Lists those of the copies that are overdue on the day.
fn list_overdue<A: Allocator + Copy, const N: usize>(
    desk: &Desk<A>,
    day: Day,
    copies: LentCopies<'_, A>,
    mut cut: Cut,
    items: &mut ArrayVec<ListItem, N>,
)
    requires { All (λ (copy : ℕ). copy < (facts desk.now).copies) copies }
    ensures { items.new.items ≡ filled N cut items.old.items
        (filter_map (overdue_copy (desk_of desk.now) day) copies.entry) }
{
    for copy in copies {
        if let Some(item) = overdue_copy(desk, day, copy) {
            cut.take(item, items);
        }
    }
}

/// Lists the copies that are kept for the patron, of these titles.
fn list_kept<A: Allocator + Copy, const N: usize>(
    desk: &Desk<A>,
    patron: PatronNo,
    held: &[HeldTitle],
    mut cut: Cut,
    items: &mut ArrayVec<ListItem, N>,
)
    requires { All (λ (held : HeldTitle). held.title < (facts desk.now).titles) held.now }
    ensures { items.new.items ≡ filled N cut items.old.items
        (filter_map (kept_copy (desk_of desk.now) patron) held.now) }
{
    for title in held {
        if let Some(item) = kept_copy(desk, patron, title) {
            cut.take(item, items);
        }
    }
}

/// Lists those of the titles for which the patron's hold waits.
fn list_waiting<A: Allocator + Copy, const N: usize>(
    desk: &Desk<A>,
    patron: PatronNo,
    held: &[HeldTitle],
    mut cut: Cut,
    items: &mut ArrayVec<ListItem, N>,
)
    requires { All (λ (held : HeldTitle). held.title < (facts desk.now).titles) held.now }
    ensures { items.new.items ≡ filled N cut items.old.items
        (filter_map (waiting_title (desk_of desk.now) patron) held.now) }
{
    for title in held {
        if let Some(item) = waiting_title(desk, patron, title) {
            cut.take(item, items);
        }
    }
}
