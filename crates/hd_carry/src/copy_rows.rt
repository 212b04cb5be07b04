//! The rows of the copies.
#![tactic(auto, unfolding(crate::specs::WriteOffs::without_loans))]

ghost use Rattle.std.specs.Prelude.{◌≡◌, ◌==◌, ◌++◌, if◌then◌else◌, None, OnOk, Some};
ghost use Rattle.hd_rules.specs.declared.rows.OpeningRow.TheVariants.{OpenShelf};
ghost use Rattle.hd_catalogue.specs.Contents.{facts_of};
ghost use Rattle.hd_desk.specs.Desks.{desk_of, facts};
ghost use Rattle.hd_carry.specs.CarriedRows.{copy_row, copy_rows, place_row, row_or_none, way_row};
ghost use Rattle.hd_carry.specs.Numbers.{AreCopiesOf, renumbering};
ghost use Rattle.hd_carry.specs.WriteOffs.{is_noted, without_loans};

use crate::counting::{copies_of, copy_at};
use crate::names::NewNumbers;
use crate::writing_off::WriteOff;
use hd_catalogue::Catalogue;
use hd_desk::Desk;
use hd_rules::{BranchNo, CopyNo, CopyState, Loan, OpeningRow, Transit};
use std::alloc::{AllocError, Allocator};

/// Adds the rows of the copies, by number.
pub(crate) fn add_copy_rows<A: Allocator + Copy>(
    desk: &Desk<A>,
    new: &Catalogue<A>,
    numbers: &NewNumbers<A>,
    write_off: &WriteOff<A>,
    rows: &mut Vec<OpeningRow, A>,
) -> Result<(), AllocError>
    requires { AreCopiesOf (facts_of new.now) (renumbering numbers.now) }
    ensures { OnOk result (rows.new.items ≡ rows.old.items ++ copy_rows (renumbering numbers.now)
        (facts_of new.now) (without_loans (facts desk.now) (is_noted write_off.now) (desk_of desk.now))
        (facts desk.now).copies) }
{
    for number in 0..copies_of(desk) {
        let copy = copy_at(number);
        let state = write_off.state(desk, copy);
        add_row(rows, copy_row(new, numbers, copy, &state))?;
    }
    Ok(())
}

/// Adds a row, if there is one.
fn add_row<A: Allocator>(
    rows: &mut Vec<OpeningRow, A>,
    row: Option<OpeningRow>,
) -> Result<(), AllocError>
    ensures { OnOk result (rows.new.items ≡ rows.old.items ++ row_or_none row) }
{
    match row {
        Some(row) => Ok(rows.push(row)?),
        None => Ok(()),
    }
}

/// The row of a copy, or `None` where it is gone, or needs none.
fn copy_row<A: Allocator + Copy>(
    new: &Catalogue<A>,
    numbers: &NewNumbers<A>,
    copy: CopyNo,
    state: &CopyState,
) -> Option<OpeningRow>
    requires { AreCopiesOf (facts_of new.now) (renumbering numbers.now) }
    ensures { result ≡ copy_row (renumbering numbers.now) (facts_of new.now) copy state.now }
{
    let there = numbers.copy(copy)?;
    place_row(numbers, there, new.home(there), state)
}

/// The row of a copy with this new number and home. On the open shelf of its home it needs none.
fn place_row<A: Allocator + Copy>(
    numbers: &NewNumbers<A>,
    copy: CopyNo,
    home: BranchNo,
    state: &CopyState,
) -> Option<OpeningRow>
    ensures { result ≡ place_row (renumbering numbers.now) copy home state.now }
{
    match state {
        CopyState::Shelf(branch) => shelf_row(copy, home, numbers.branch(*branch)?),
        CopyState::OnLoan(loan) => {
            let patron = numbers.patron(loan.patron)?;
            let loan = Loan { patron, ..*loan };
            Some(OpeningRow::Loan { copy, loan })
        }
        CopyState::OnHoldShelf(place) => {
            let patron = numbers.patron(place.patron)?;
            let place = place.place;
            Some(OpeningRow::HoldShelf {
                copy,
                patron,
                place,
            })
        }
        CopyState::InTransit(transit) => {
            way_row(numbers, copy, numbers.branch(transit.from)?, transit)
        }
    }
}

/// The row of a copy on the open shelf of a branch.
fn shelf_row(copy: CopyNo, home: BranchNo, branch: BranchNo) -> Option<OpeningRow>
    ensures { result ≡ (if branch == home then None else Some (OpenShelf copy branch)) }
{
    if branch == home {
        None
    } else {
        Some(OpeningRow::OpenShelf { copy, branch })
    }
}

/// The row of a copy that was sent from a branch.
fn way_row<A: Allocator + Copy>(
    numbers: &NewNumbers<A>,
    copy: CopyNo,
    from: BranchNo,
    transit: &Transit,
) -> Option<OpeningRow>
    ensures { result
        ≡ way_row (renumbering numbers.now) copy from transit.now.patron transit.now.to }
{
    match transit.patron {
        Some(patron) => {
            let patron = numbers.patron(patron)?;
            Some(OpeningRow::HoldTransit { copy, patron, from })
        }
        None => {
            let to = numbers.branch(transit.to)?;
            Some(OpeningRow::Transit { copy, from, to })
        }
    }
}
