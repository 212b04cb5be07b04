//! The column of a reply.
ghost use Rattle.std.specs.Prelude.{◌≡◌, IfOk, OnOk};
ghost use Rattle.hd_turn_row.specs.Replies.{IsReplyColumn, done_numbers, hold_numbers};
ghost use Rattle.hd_turn_row.specs.Replies.{kind_number, number_if_any, refusal_number, reply_numbers};
ghost use Rattle.hd_turn_row.specs.Replies.{state_numbers, truth_number};
ghost use Rattle.hd_turn_row.specs.Written.{IsWritten};

use crate::written::append;
use hd_rules::{CopyState, Hold, HoldKind, ItemView, Refusal, Reply, TurnReply};
use std::alloc::{AllocError, Allocator};

// Which reply it is.
const LENT: u64 = 1;

const RETURNED: u64 = 2;

const HELD: u64 = 3;

const DELETED: u64 = 4;

const REFUSED: u64 = 5;

const CANCELLED: u64 = 6;

const ITEM: u64 = 7;

// Where a copy is.
const SHELF: u64 = 0;

const ON_LOAN: u64 = 1;

const HOLD_SHELF: u64 = 2;

const IN_TRANSIT: u64 = 3;

/// The column of a reply: which it is and all that it says, in numbers of eight bytes each, the most
/// significant first.
///
/// Titles, copies, patrons and branches are written as their numbers in the catalogue, which a catalogue that
/// only grew keeps.
///
/// # Errors
/// Out of memory.
pub(crate) fn reply_column<A: Allocator>(
    alloc: A,
    reply: &TurnReply,
) -> Result<Vec<u8, A>, AllocError>
    ensures { IfOk result (λ column. IsReplyColumn reply.now column.items) }
{
    let mut column = Vec::new(alloc);
    match reply {
        TurnReply::Done { number, reply } => append_done(&mut column, *number, reply)?,
        TurnReply::Refused(refusal) => append_refusal(&mut column, *refusal)?,
        TurnReply::Cancelled { number } => append(&mut column, &[CANCELLED, *number])?,
        TurnReply::Item(view) => append_item(&mut column, view)?,
    }
    Ok(column)
}

/// Appends the reply to the command of a number.
fn append_done<A: Allocator>(
    out: &mut Vec<u8, A>,
    number: u64,
    reply: &Reply,
) -> Result<(), AllocError>
    ensures { OnOk result (IsWritten (done_numbers number reply.now) out.old.items out.new.items) }
{
    match reply {
        Reply::LentOrRenewed {
            title,
            due,
            renewal,
        } => {
            let title = u64::from(title.number());
            let due = u64::from(due.number());
            append(out, &[LENT, number, title, due, truth_number(*renewal)])
        }
        Reply::Returned { title, home, now } => {
            let home = u64::from(home.number());
            append(out, &[RETURNED, number, u64::from(title.number()), home])?;
            append_state(out, now)
        }
        Reply::Held {
            title,
            available,
            position,
            hold,
        } => {
            let title = u64::from(title.number());
            let available = truth_number(*available);
            append(out, &[HELD, number, title, available, *position])?;
            append_hold(out, hold)?;
            Ok(())
        }
        Reply::Deleted { title } => append(out, &[DELETED, number, u64::from(title.number())]),
    }
}

/// Appends a refusal, and its number where it has one.
fn append_refusal<A: Allocator>(out: &mut Vec<u8, A>, refusal: Refusal) -> Result<(), AllocError>
    ensures { OnOk result
        (IsWritten (reply_numbers (TurnReply.Refused refusal)) out.old.items out.new.items) }
{
    append(out, &[REFUSED, refusal_number(refusal)])?;
    if let Refusal::Depends { number } = refusal {
        append(out, &[number])?;
    }
    Ok(())
}

/// Appends what a query shows.
fn append_item<A: Allocator>(out: &mut Vec<u8, A>, view: &ItemView) -> Result<(), AllocError>
    ensures { OnOk result (IsWritten (reply_numbers (TurnReply.Item view.now)) out.old.items out.new.items) }
{
    append(out, &[ITEM, u64::from(view.holds)])?;
    append_state(out, &view.state)
}

/// Appends where a copy is.
fn append_state<A: Allocator>(out: &mut Vec<u8, A>, state: &CopyState) -> Result<(), AllocError>
    ensures { OnOk result (IsWritten (state_numbers state.now) out.old.items out.new.items) }
{
    match state {
        CopyState::Shelf(branch) => append(out, &[SHELF, u64::from(branch.number())]),
        CopyState::OnLoan(loan) => {
            let patron = u64::from(loan.patron.number());
            let due = u64::from(loan.due.number());
            append(out, &[ON_LOAN, patron, due, u64::from(loan.renewals)])
        }
        CopyState::OnHoldShelf(spot) => {
            let branch = u64::from(spot.branch.number());
            let patron = u64::from(spot.patron.number());
            append(out, &[HOLD_SHELF, branch, u64::from(spot.place), patron])
        }
        CopyState::InTransit(way) => {
            let from = u64::from(way.from.number());
            let to = u64::from(way.to.number());
            let patron = number_if_any(way.patron.map(|patron| patron.number()));
            append(out, &[IN_TRANSIT, from, to, patron])
        }
    }
}

/// Appends a hold.
fn append_hold<A: Allocator>(out: &mut Vec<u8, A>, hold: &Hold) -> Result<(), AllocError>
    ensures { OnOk result (IsWritten (hold_numbers hold.now) out.old.items out.new.items) }
{
    let patron = u64::from(hold.patron.number());
    let pickup = u64::from(hold.pickup.number());
    let expiry = number_if_any(hold.expiry.map(|day| day.number()));
    let copy = number_if_any(hold.copy.map(|copy| copy.number()));
    let kind = kind_number(&hold.kind);
    append(out, &[patron, hold.stamp, kind, pickup, expiry, copy])
}

/// Which copies a hold admits.
fn kind_number(kind: &HoldKind) -> u64
    ensures { result ≡ kind_number kind.now }
{
    match kind {
        HoldKind::Any => 0,
        HoldKind::AtBranch => 1,
        HoldKind::One(copy) => u64::from(copy.number()) + 2,
    }
}

/// 0 of none, and one more than a number that there is.
fn number_if_any(number: Option<u32>) -> u64
    ensures { result ≡ number_if_any number }
{
    match number {
        Some(number) => u64::from(number) + 1,
        None => 0,
    }
}

/// 1 where it is so.
fn truth_number(holds: bool) -> u64
    ensures { result ≡ truth_number holds }
{
    if holds { 1 } else { 0 }
}

/// Which refusal it is.
fn refusal_number(refusal: Refusal) -> u64
    ensures { result ≡ refusal_number refusal }
{
    match refusal {
        Refusal::NotLoggedIn => 0,
        Refusal::Unreadable => 1,
        Refusal::BadDate => 2,
        Refusal::UnknownPatron => 3,
        Refusal::UnknownItem => 4,
        Refusal::UnknownTitle => 5,
        Refusal::UnknownBranch => 6,
        Refusal::HoldExists => 7,
        Refusal::NoSuchHold => 8,
        Refusal::HoldHasCopy => 9,
        Refusal::ExpiryPassed => 10,
        Refusal::OnLoan => 11,
        Refusal::KeptForAnother => 12,
        Refusal::InTransit => 13,
        Refusal::LoanLimit => 14,
        Refusal::NotOnLoan => 15,
        Refusal::NotRenewable => 16,
        Refusal::DueRange => 17,
        Refusal::JournalFull => 18,
        Refusal::NothingToCancel => 19,
        Refusal::Depends { .. } => 20,
    }
}
