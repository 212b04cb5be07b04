//! A journal's desk beside a fresh one.
ghost use Rattle.std.specs.Prelude.{◌≡◌, ◌<◌, ◌≤◌, ℕ, IfSome, IsTrue, OnSome};
ghost use Rattle.hd_rules.specs.Facts.{first_number};
ghost use Rattle.hd_rules.specs.Known.{IsKnownAction};
ghost use Rattle.hd_rules.specs.Sound.{Sound};
ghost use Rattle.hd_desk.specs.Desks.{contents, desk_of, facts};

use crate::comparing::are_desks_alike;
use hd_desk::{Desk, Done, Meter};
use hd_journal::Journal;
use hd_rules::{Action, HoldKind, Survivor};
use std::alloc::Allocator;
use std::sync::Arc;

/// Whether every copy and every hold is as at a fresh desk to which the journal's survivors came.
pub(crate) fn is_as_fresh(rt: &HostRuntime, journal: &Journal) -> bool {
    match fresh(rt, journal) {
        Some(desk) => are_desks_alike(journal.desk(), &desk),
        None => false,
    }
}

/// A fresh desk after the journal's survivors. None where one of these isn't a hold of any copy.
fn fresh(rt: &HostRuntime, journal: &Journal) -> Option<Desk> {
    let mut desk = fresh_desk(rt, journal)?;
    let mut meter = Meter::new(rt);
    let mut done = Done::new(rt.alloc());
    let mut last = u64::from(desk.catalogue().last_before());
    for survivor in journal.survivors() {
        if survivor.number <= last {
            return None;
        }
        last = survivor.number;
        hold_again(&mut desk, &mut meter, &mut done, survivor)?;
    }
    Some(desk)
}

/// A fresh desk of the journal's library.
fn fresh_desk(rt: &HostRuntime, journal: &Journal) -> Option<Desk>
    ensures { IfSome result (λ desk. (n : ℕ) → first_number (facts desk) ≤ n
        → Sound (facts desk) n (desk_of desk)) }
{
    let Ok(catalogue) = Arc::try_clone(journal.desk().catalogue()) else {
        return None;
    };
    match Desk::open(rt.alloc(), catalogue) {
        Ok(desk) => Some(desk),
        Err(_) => None,
    }
}

/// Does the survivor's command, where it is a hold of any copy that is accepted.
// Of any allocator, since the prover builds no plan for the borrows of a desk with the global one.
fn hold_again<A: Allocator + Copy>(
    desk: &mut Desk<A>,
    meter: &mut Meter,
    done: &mut Done,
    survivor: &Survivor,
) -> Option<()>
    requires { Sound (facts desk.old) survivor.now.number (desk_of desk.old) }
    ensures { OnSome result ((n : ℕ) → survivor.now.number < n
        → Sound (facts desk.new) n (desk_of desk.new)) }
{
    if !is_hold(desk, &survivor.command.action) {
        return None;
    }
    desk.apply(survivor.number, &survivor.command, meter, done)
        .ok()?;
    Some(())
}

/// Whether it is a hold of any copy, of names of the desk's catalogue.
fn is_hold<A: Allocator + Copy>(desk: &Desk<A>, action: &Action) -> bool
    ensures { IsTrue result → IsKnownAction (facts desk.now) action.now }
{
    let catalogue = desk.catalogue();
    match action {
        Action::Add {
            patron,
            title,
            kind: HoldKind::Any,
            pickup,
            ..
        } => {
            (patron.number() as usize) < catalogue.patrons()
                && (title.number() as usize) < catalogue.titles()
                && (pickup.number() as usize) < catalogue.branches()
        }
        _ => false,
    }
}
