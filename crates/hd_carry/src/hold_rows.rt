//! The rows of the holds.

ghost use Rattle.std.specs.Prelude.{◌≡◌, ◌++◌, OnOk, filter_map};
ghost use Rattle.hd_desk.specs.Asking.{queues_of};
ghost use Rattle.hd_desk.specs.Desks.{facts};
ghost use Rattle.hd_carry.specs.CarriedRows.{hold_row, hold_rows, new_kind};
ghost use Rattle.hd_carry.specs.Numbers.{renumbering};

use crate::counting::{title_at, titles_of};
use crate::names::NewNumbers;
use hd_desk::Desk;
use hd_queue::HoldSlices;
use hd_rules::{Hold, HoldKind, OpeningRow, TitleNo};
use std::alloc::{AllocError, Allocator};

/// Adds the rows of the holds of all titles, by number.
pub(crate) fn add_hold_rows<A: Allocator + Copy>(
    desk: &Desk<A>,
    numbers: &NewNumbers<A>,
    rows: &mut Vec<OpeningRow, A>,
) -> Result<(), AllocError>
    ensures { OnOk result (rows.new.items ≡ rows.old.items
        ++ hold_rows (renumbering numbers.now) (queues_of desk.now) (facts desk.now).titles) }
{
    for number in 0..titles_of(desk) {
        let title = title_at(number);
        add_queue_rows(numbers, title, desk.queue(title).holds(), rows)?;
    }
    Ok(())
}

/// Adds the rows of a title's holds, in order of stamp.
fn add_queue_rows<A: Allocator + Copy>(
    numbers: &NewNumbers<A>,
    title: TitleNo,
    holds: HoldSlices<'_, A>,
    rows: &mut Vec<OpeningRow, A>,
) -> Result<(), AllocError>
    ensures { OnOk result (rows.new.items
        ≡ rows.old.items ++ filter_map (hold_row (renumbering numbers.now) title) holds.entry) }
{
    for hold in holds {
        if let Some(row) = hold_row(numbers, title, hold) {
            rows.push(row)?;
        }
    }
    Ok(())
}

/// The row of a hold, which waits for a copy so far, or `None` where something that it names is lacking.
fn hold_row<A: Allocator + Copy>(
    numbers: &NewNumbers<A>,
    title: TitleNo,
    hold: &Hold,
) -> Option<OpeningRow>
    ensures { result ≡ hold_row (renumbering numbers.now) title hold.now }
{
    let title = numbers.title(title)?;
    let patron = numbers.patron(hold.patron)?;
    let kind = new_kind(numbers, &hold.kind)?;
    let pickup = numbers.branch(hold.pickup)?;
    let hold = Hold {
        patron,
        stamp: hold.stamp,
        kind,
        pickup,
        expiry: hold.expiry,
        copy: None,
    };
    Some(OpeningRow::Hold { title, hold })
}

/// The kind of a hold by new numbers, or `None` where the one copy that it admits is lacking.
fn new_kind<A: Allocator + Copy>(numbers: &NewNumbers<A>, kind: &HoldKind) -> Option<HoldKind>
    ensures { result ≡ new_kind (renumbering numbers.now) kind.now }
{
    match kind {
        HoldKind::Any => Some(HoldKind::Any),
        HoldKind::One(copy) => Some(HoldKind::One(numbers.copy(*copy)?)),
        HoldKind::AtBranch => Some(HoldKind::AtBranch),
    }
}
