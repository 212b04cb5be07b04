//! The state of a patron's loans and holds.

ghost use Rattle.std.specs.Prelude.{◌≡◌, ◌<◌, ◌^◌, All, filter_map, length, ℕ};
ghost use Rattle.hd_rules.specs.Views.{may_borrow, view};
ghost use Rattle.hd_holds.specs.declared.held_title.HeldTitle.{HeldTitle};
ghost use Rattle.hd_desk.specs.Desks.{desk_of, facts};
ghost use Rattle.hd_patron_view.specs.Held.{kept_copy, overdue_copy};

use crate::having::{held, kept_copy, lent, overdue_copy};
use hd_desk::{Desk, HeldTitle, LentCopies};
use hd_rules::{
    Borrowing, Day, PatronNo, PatronView, charged_are_counted, kept_and_waiting_are_the_holds,
};
use std::alloc::Allocator;

/// The state of the patron's loans and holds on the day. It reads these alone, and takes no memory.
pub fn view<A: Allocator + Copy>(desk: &Desk<A>, patron: PatronNo, day: Day) -> PatronView
    requires { patron < (facts desk.now).patrons }
    ensures { result ≡ view (facts desk.now) (desk_of desk.now) patron day }
{
    charged_are_counted();
    kept_and_waiting_are_the_holds();
    let charged = lent(desk, patron).count() as u32;
    let overdue = count_overdue(desk, day, lent(desk, patron));
    let held = held(desk, patron);
    let kept = count_kept(desk, patron, held);
    let waiting = held.len() as u32 - kept;
    let loan_limit = desk.catalogue().loan_limit(patron);
    PatronView {
        charged,
        overdue,
        kept,
        waiting,
        borrowing: may_borrow(charged, loan_limit),
        loan_limit,
    }
}

/// How many of the copies are overdue on the day.
fn count_overdue<A: Allocator + Copy>(desk: &Desk<A>, day: Day, copies: LentCopies<'_, A>) -> u32
    requires known { All (λ (copy : ℕ). copy < (facts desk.now).copies) copies }
    requires few { length copies < 2 ^ 32 }
    ensures { result ≡ length (filter_map (overdue_copy (desk_of desk.now) day) copies.entry) }
{
    let mut overdue = 0;
    for copy in copies {
        if overdue_copy(desk, day, copy).is_some() {
            overdue += 1;
        }
    }
    overdue
}

/// How many of the titles have a copy that is kept for the patron.
fn count_kept<A: Allocator + Copy>(desk: &Desk<A>, patron: PatronNo, held: &[HeldTitle]) -> u32
    requires known { All (λ (held : HeldTitle). held.title < (facts desk.now).titles) held.now }
    requires few { length held.now < 2 ^ 32 }
    ensures { result ≡ length (filter_map (kept_copy (desk_of desk.now) patron) held.now) }
{
    let mut kept = 0;
    for title in held {
        if kept_copy(desk, patron, title).is_some() {
            kept += 1;
        }
    }
    kept
}

/// Whether a patron with this number of loans and this limit may borrow.
fn may_borrow(loans: u32, limit: u32) -> Borrowing
    ensures { result ≡ may_borrow loans limit }
{
    if limit == 0 {
        Borrowing::Denied
    } else if loans < limit {
        Borrowing::Allowed
    } else {
        Borrowing::TooMany
    }
}
