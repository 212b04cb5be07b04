//! What a patron has, and what is listed of it.

ghost use Rattle.std.specs.Prelude.{◌≡◌, ◌<◌, ◌^◌, All, length, ℕ};
ghost use Rattle.hd_rules.specs.Known.{IsKnownHold};
ghost use Rattle.hd_rules.specs.Views.{holds_of, is_shelved, loans_of};
ghost use Rattle.hd_holds.specs.declared.held_title.HeldTitle.{HeldTitle};
ghost use Rattle.hd_desk.specs.Desks.{desk_of, facts};
ghost use Rattle.hd_patron_view.specs.Held.{held_by, kept_copy, overdue_copy, waiting_title};

use hd_desk::{Desk, HeldTitle, LentCopies};
use hd_rules::{CopyNo, CopyState, Day, Hold, ListItem, PatronNo, listed_once};
use std::alloc::Allocator;

/// The copies on loan to the patron, by rising number. It reads these alone, and takes no memory.
pub fn lent<A: Allocator + Copy>(desk: &Desk<A>, patron: PatronNo) -> LentCopies<'_, A>
    ensures copies { result ≡ loans_of (facts desk.now) (desk_of desk.now) patron }
    ensures known { All (λ (copy : ℕ). copy < (facts desk.now).copies) result }
    ensures few { length result < 2 ^ 32 }
{
    let _catalogue = desk.catalogue().copies();
    desk.lent_to(patron)
}

/// The titles that the patron holds, in the order of their holds. It takes no memory.
pub fn held<A: Allocator + Copy>(desk: &Desk<A>, patron: PatronNo) -> &[HeldTitle]
    ensures holds { held_by (desk_of desk.now) patron result.now
        ≡ holds_of (facts desk.now) (desk_of desk.now) patron }
    ensures count { length result.now ≡ length (holds_of (facts desk.now) (desk_of desk.now) patron) }
    ensures known { All (λ (held : HeldTitle). held.title < (facts desk.now).titles) result.now }
    ensures few { length result.now < 2 ^ 32 }
{
    listed_once();
    let _catalogue = desk.catalogue().copies();
    let _titles = desk.titles();
    desk.held_by(patron)
}

/// The copy, where it is on loan and due before the day.
pub(crate) fn overdue_copy<A: Allocator + Copy>(
    desk: &Desk<A>,
    day: Day,
    copy: CopyNo,
) -> Option<ListItem>
    requires { copy < (facts desk.now).copies }
    ensures { result ≡ overdue_copy (desk_of desk.now) day copy }
{
    match desk.copy(copy) {
        CopyState::OnLoan(loan) if loan.due < day => Some(ListItem::Copy(copy)),
        _ => None,
    }
}

/// The copy of the patron's hold of the title, where it is kept.
pub(crate) fn kept_copy<A: Allocator + Copy>(
    desk: &Desk<A>,
    patron: PatronNo,
    held: &HeldTitle,
) -> Option<ListItem>
    requires { held.now.title < (facts desk.now).titles }
    ensures { result ≡ kept_copy (desk_of desk.now) patron held.now }
{
    if let Some(hold) = desk.hold(held.title, patron)
        && is_kept(desk, &hold)
        && let Some(copy) = hold.copy
    {
        Some(ListItem::Copy(copy))
    } else {
        None
    }
}

/// The title, where the patron's hold of it waits.
pub(crate) fn waiting_title<A: Allocator + Copy>(
    desk: &Desk<A>,
    patron: PatronNo,
    held: &HeldTitle,
) -> Option<ListItem>
    requires { held.now.title < (facts desk.now).titles }
    ensures { result ≡ waiting_title (desk_of desk.now) patron held.now }
{
    if let Some(hold) = desk.hold(held.title, patron)
        && !is_kept(desk, &hold)
    {
        Some(ListItem::Title(held.title))
    } else {
        None
    }
}

/// Whether the hold has a copy that is on a hold shelf.
fn is_kept<A: Allocator + Copy>(desk: &Desk<A>, hold: &Hold) -> bool
    requires { IsKnownHold (facts desk.now) hold.now }
    ensures { result ≡ is_shelved (desk_of desk.now) hold.now.copy }
{
    match hold.copy {
        Some(copy) => matches!(desk.copy(copy), CopyState::OnHoldShelf(_)),
        None => false,
    }
}
