//! What the parts of a row ask.
ghost use Rattle.std.specs.Prelude.{◌≡◌, IfErr, IfOk, OnOk, Some};
ghost use Rattle.hd_turn_row.specs.Faults.{IsFirstMisfit, IsMisfit, misfit};
ghost use Rattle.hd_ask_parts.specs.Parts.{asked_parts};
ghost use Rattle.hd_turn_row.specs.Parts.{asked_by, kind_by};

use crate::fault::{Column, RowFault};
use hd_ask_parts::{Act, Admits, Parts, parts_of};
use hd_rules::{
    Action, Asked, BranchNo, Cancel, Command, CopyNo, Day, HoldKind, PatronNo, TitleNo,
};

/// What the parts ask, or the first that is missing or forbidden.
pub(crate) fn asked_of(parts: &Parts) -> Result<Asked, RowFault>
    ensures asked { IfOk result (λ asked. asked_parts asked ≡ Some parts.now) }
    ensures fault { IfErr result (IsMisfit parts.now) }
{
    let asked = asked_by(parts);
    let Some(again) = parts_of(&asked) else {
        unreachable!()
    };
    fit(parts, &again)?;
    Ok(asked)
}

/// Checks that parts are the same in each column.
fn fit(parts: &Parts, again: &Parts) -> Result<(), RowFault>
    ensures ok { OnOk result (again.now ≡ parts.now) }
    ensures fault { IfErr result (IsFirstMisfit parts.now again.now) }
{
    if parts.day != again.day {
        return Err(misfit(parts.day.is_some(), Column::Day));
    }
    if parts.act != again.act {
        return Err(misfit(true, Column::Act));
    }
    if parts.patron != again.patron {
        return Err(misfit(parts.patron.is_some(), Column::Patron));
    }
    if parts.copy != again.copy {
        return Err(misfit(parts.copy.is_some(), Column::Copy));
    }
    if parts.title != again.title {
        return Err(misfit(parts.title.is_some(), Column::Title));
    }
    if parts.branch != again.branch {
        return Err(misfit(parts.branch.is_some(), Column::Branch));
    }
    if parts.admits != again.admits {
        return Err(misfit(parts.admits.is_some(), Column::Admits));
    }
    if parts.until != again.until {
        return Err(misfit(parts.until.is_some(), Column::Until));
    }
    Ok(())
}

/// The fault of a column that is filled or not, and should be otherwise.
fn misfit(is_filled: bool, column: Column) -> RowFault
    ensures { result ≡ misfit is_filled column }
{
    if is_filled {
        RowFault::Unwanted(column)
    } else {
        RowFault::Wanting(column)
    }
}

/// What parts ask. In place of a part that is missing it has the first number of its kind. A part that the
/// act forbids isn't looked at.
#[tactic(auto, unfolding(crate::specs::Parts::asked_by))]
fn asked_by(parts: &Parts) -> Asked
    ensures { result ≡ asked_by parts.now }
{
    let patron = parts.patron.unwrap_or(PatronNo::new(0).unwrap());
    let copy = parts.copy.unwrap_or(CopyNo::new(0).unwrap());
    let title = parts.title.unwrap_or(TitleNo::new(0).unwrap());
    let branch = parts.branch.unwrap_or(BranchNo::new(0).unwrap());
    let action = match parts.act {
        Act::Checkout | Act::CheckoutOrRenewal => Action::Checkout {
            patron,
            copy,
            may_renew: matches!(parts.act, Act::CheckoutOrRenewal),
        },
        Act::OffLine => {
            let due = parts.until.unwrap_or(Day::first());
            Action::OffLine { patron, copy, due }
        }
        Act::Checkin => Action::Checkin { copy, branch },
        Act::Add => Action::Add {
            patron,
            title,
            kind: kind_by(parts.admits.unwrap_or(Admits::Any), copy),
            pickup: branch,
            expiry: parts.until,
        },
        Act::Delete => Action::Delete { patron, title },
        Act::Change => Action::Change {
            patron,
            title,
            kind: parts.admits.map(|admits| kind_by(admits, copy)),
            pickup: parts.branch,
            expiry: parts.until,
        },
        Act::Renewal => Action::Renewal { patron, copy },
        Act::CancelCheckout => return Asked::Cancel(Cancel::Checkout(copy)),
        Act::CancelCheckin => return Asked::Cancel(Cancel::Checkin(copy)),
        Act::CancelRenewal => return Asked::Cancel(Cancel::Renewal(copy)),
        Act::CancelAdd => return Asked::Cancel(Cancel::Add(patron, title)),
        Act::CancelDelete => return Asked::Cancel(Cancel::Delete(patron, title)),
        Act::CancelChange => return Asked::Cancel(Cancel::Change(patron, title)),
    };
    Asked::Command(Command {
        day: parts.day.unwrap_or(Day::first()),
        action,
    })
}

/// What a hold admits.
fn kind_by(admits: Admits, copy: CopyNo) -> HoldKind
    ensures { result ≡ kind_by admits copy }
{
    match admits {
        Admits::Any => HoldKind::Any,
        Admits::Copy => HoldKind::One(copy),
        Admits::Branch => HoldKind::AtBranch,
    }
}
