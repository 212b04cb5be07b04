//! What is asked, part by part.
ghost use Rattle.std.specs.Prelude.{◌≡◌};
ghost use Rattle.hd_ask_parts.specs.Parts.{action_parts, admits_of, asked_parts, bare, cancel_parts};
ghost use Rattle.hd_ask_parts.specs.Parts.{command_parts, copy_of, copy_parts, hold_parts, loan_parts};

use crate::act::{Act, Admits};
use hd_rules::{
    Action, Asked, BranchNo, Cancel, Command, CopyNo, Day, HoldKind, PatronNo, TitleNo,
};

/// What a command or a cancellation asks, part by part: nothing where a part doesn't apply.
#[derive(Clone, Copy)]
pub struct Parts {
    /// What it does.
    pub act: Act,
    /// The day of its transaction; a cancellation has none.
    pub day: Option<Day>,
    /// Its patron.
    pub patron: Option<PatronNo>,
    /// Its copy, or the one copy that a hold admits.
    pub copy: Option<CopyNo>,
    /// Its title.
    pub title: Option<TitleNo>,
    /// The branch that a copy is returned at, or at which a hold is picked up.
    pub branch: Option<BranchNo>,
    /// What a hold admits.
    pub admits: Option<Admits>,
    /// The due day of a loan that was made off line, or a hold's last day.
    pub until: Option<Day>,
}

/// What a command or a cancellation asks; `None` of a query, which does nothing.
pub fn parts_of(asked: &Asked) -> Option<Parts>
    ensures { result ≡ asked_parts asked.now }
{
    match asked {
        Asked::Command(command) => Some(command_parts(command)),
        Asked::Cancel(what) => Some(cancel_parts(what)),
        Asked::Item(_) => None,
    }
}

/// What a command asks.
pub fn command_parts(command: &Command) -> Parts
    ensures { result ≡ command_parts command.now }
{
    Parts {
        day: Some(command.day),
        ..action_parts(&command.action)
    }
}

/// What a command asks, without its day.
fn action_parts(action: &Action) -> Parts
    ensures { result ≡ action_parts action.now }
{
    match action {
        Action::Checkout {
            patron,
            copy,
            may_renew,
        } => of_checkout(*may_renew, *patron, *copy),
        Action::OffLine { patron, copy, due } => Parts {
            until: Some(*due),
            ..of_loan(Act::OffLine, *patron, *copy)
        },
        Action::Checkin { copy, branch } => Parts {
            branch: Some(*branch),
            ..of_copy(Act::Checkin, *copy)
        },
        Action::Add {
            patron,
            title,
            kind,
            pickup,
            expiry,
        } => Parts {
            copy: copy_of(kind),
            branch: Some(*pickup),
            admits: Some(admits_of(kind)),
            until: *expiry,
            ..of_hold(Act::Add, *patron, *title)
        },
        Action::Delete { patron, title } => of_hold(Act::Delete, *patron, *title),
        Action::Change {
            patron,
            title,
            kind,
            pickup,
            expiry,
        } => Parts {
            copy: kind.as_ref().and_then(copy_of),
            branch: *pickup,
            admits: kind.as_ref().map(admits_of),
            until: *expiry,
            ..of_hold(Act::Change, *patron, *title)
        },
        Action::Renewal { patron, copy } => of_loan(Act::Renewal, *patron, *copy),
    }
}

/// What a cancellation asks.
pub fn cancel_parts(what: &Cancel) -> Parts
    ensures { result ≡ cancel_parts what.now }
{
    match what {
        Cancel::Checkout(copy) => of_copy(Act::CancelCheckout, *copy),
        Cancel::Checkin(copy) => of_copy(Act::CancelCheckin, *copy),
        Cancel::Renewal(copy) => of_copy(Act::CancelRenewal, *copy),
        Cancel::Add(patron, title) => of_hold(Act::CancelAdd, *patron, *title),
        Cancel::Delete(patron, title) => of_hold(Act::CancelDelete, *patron, *title),
        Cancel::Change(patron, title) => of_hold(Act::CancelChange, *patron, *title),
    }
}

/// An act that names nothing.
fn bare(act: Act) -> Parts
    ensures { result ≡ bare act }
{
    Parts {
        act,
        day: None,
        patron: None,
        copy: None,
        title: None,
        branch: None,
        admits: None,
        until: None,
    }
}

/// What is done with a copy.
fn of_copy(act: Act, copy: CopyNo) -> Parts
    ensures { result ≡ copy_parts act copy }
{
    Parts {
        copy: Some(copy),
        ..bare(act)
    }
}

/// What is done with a patron's loan.
fn of_loan(act: Act, patron: PatronNo, copy: CopyNo) -> Parts
    ensures { result ≡ loan_parts act patron copy }
{
    Parts {
        patron: Some(patron),
        ..of_copy(act, copy)
    }
}

/// What is done with a patron's hold.
fn of_hold(act: Act, patron: PatronNo, title: TitleNo) -> Parts
    ensures { result ≡ hold_parts act patron title }
{
    Parts {
        patron: Some(patron),
        title: Some(title),
        ..bare(act)
    }
}

/// A checkout, by whether it may renew.
fn of_checkout(may_renew: bool, patron: PatronNo, copy: CopyNo) -> Parts
    ensures { result ≡ action_parts (Action.Checkout patron copy may_renew) }
{
    if may_renew {
        of_loan(Act::CheckoutOrRenewal, patron, copy)
    } else {
        of_loan(Act::Checkout, patron, copy)
    }
}

/// What a hold admits, without the copy.
pub fn admits_of(kind: &HoldKind) -> Admits
    ensures { result ≡ admits_of kind.now }
{
    match kind {
        HoldKind::Any => Admits::Any,
        HoldKind::One(_) => Admits::Copy,
        HoldKind::AtBranch => Admits::Branch,
    }
}

/// The copy that a hold admits, where it is one alone.
pub fn copy_of(kind: &HoldKind) -> Option<CopyNo>
    ensures { result ≡ copy_of kind.now }
{
    match kind {
        HoldKind::Any | HoldKind::AtBranch => None,
        HoldKind::One(copy) => Some(*copy),
    }
}
