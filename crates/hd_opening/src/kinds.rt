//! The lines of each kind but holds.
#![tactic(auto, unfolding(hd_catalogue::specs::Contents::branch_number, hd_catalogue::specs::Contents::title_number, hd_catalogue::specs::Contents::copy_number, hd_catalogue::specs::Contents::patron_number))]

ghost use Rattle.std.specs.Prelude.{◌≡◌};
ghost use Rattle.hd_catalogue.specs.Text.{as_four, as_three, as_two};
ghost use Rattle.hd_opening.specs.Lines.{kept_said, loan_said, sent_said, shelf_said, transit_said};

use crate::cause::OpeningCause;
use crate::days::read_day;
use crate::limits::MOST_PLACES;
use crate::names::{copy_and_branch, copy_and_patron, number_from_one};
use hd_catalogue::{Catalogue, Values, is_name, number};
use hd_rules::{Loan, MOST_RENEWALS, OpeningRow};
use std::alloc::Allocator;

/// What a loan's line says.
pub(crate) fn read_loan<A: Allocator + Copy>(
    catalogue: &Catalogue<A>,
    short: bool,
    values: Values<'_>,
) -> Result<OpeningRow, OpeningCause>
    ensures { result ≡ loan_said short catalogue.now (as_four values.entry) }
{
    let Some((copy, patron, due, renewals)) = values.four() else {
        return Err(OpeningCause::Fields);
    };
    if !short || !is_name(copy) || !is_name(patron) {
        return Err(OpeningCause::Text);
    }
    let Some(due) = read_day(due) else {
        return Err(OpeningCause::Number);
    };
    let Some(renewals) = number(MOST_RENEWALS, renewals) else {
        return Err(OpeningCause::Number);
    };
    let Some((copy, patron)) = copy_and_patron(catalogue, copy, patron) else {
        return Err(OpeningCause::Unknown);
    };
    Ok(OpeningRow::Loan {
        copy,
        loan: Loan {
            patron,
            due,
            renewals,
        },
    })
}

/// What the line of a copy on an open shelf says.
pub(crate) fn read_shelf<A: Allocator + Copy>(
    catalogue: &Catalogue<A>,
    short: bool,
    values: Values<'_>,
) -> Result<OpeningRow, OpeningCause>
    ensures { result ≡ shelf_said short catalogue.now (as_two values.entry) }
{
    let Some((copy, branch)) = values.two() else {
        return Err(OpeningCause::Fields);
    };
    if !short || !is_name(copy) || !is_name(branch) {
        return Err(OpeningCause::Text);
    }
    let Some((copy, branch)) = copy_and_branch(catalogue, copy, branch) else {
        return Err(OpeningCause::Unknown);
    };
    Ok(OpeningRow::OpenShelf { copy, branch })
}

/// What the line of a copy that is kept for a hold says.
pub(crate) fn read_kept<A: Allocator + Copy>(
    catalogue: &Catalogue<A>,
    short: bool,
    values: Values<'_>,
) -> Result<OpeningRow, OpeningCause>
    ensures { result ≡ kept_said short catalogue.now (as_three values.entry) }
{
    let Some((copy, patron, place)) = values.three() else {
        return Err(OpeningCause::Fields);
    };
    if !short || !is_name(copy) || !is_name(patron) {
        return Err(OpeningCause::Text);
    }
    let Some(place) = number_from_one(MOST_PLACES, place) else {
        return Err(OpeningCause::Number);
    };
    let Some((copy, patron)) = copy_and_patron(catalogue, copy, patron) else {
        return Err(OpeningCause::Unknown);
    };
    Ok(OpeningRow::HoldShelf {
        copy,
        patron,
        place,
    })
}

/// What the line of a copy on its way for a hold says.
pub(crate) fn read_sent<A: Allocator + Copy>(
    catalogue: &Catalogue<A>,
    short: bool,
    values: Values<'_>,
) -> Result<OpeningRow, OpeningCause>
    ensures { result ≡ sent_said short catalogue.now (as_three values.entry) }
{
    let Some((copy, patron, from)) = values.three() else {
        return Err(OpeningCause::Fields);
    };
    if !short || !is_name(copy) || !is_name(patron) || !is_name(from) {
        return Err(OpeningCause::Text);
    }
    let Some((copy, patron)) = copy_and_patron(catalogue, copy, patron) else {
        return Err(OpeningCause::Unknown);
    };
    let Some(from) = catalogue.branch(from) else {
        return Err(OpeningCause::Unknown);
    };
    Ok(OpeningRow::HoldTransit { copy, patron, from })
}

/// What the line of a copy on its way for nobody says.
pub(crate) fn read_transit<A: Allocator + Copy>(
    catalogue: &Catalogue<A>,
    short: bool,
    values: Values<'_>,
) -> Result<OpeningRow, OpeningCause>
    ensures { result ≡ transit_said short catalogue.now (as_three values.entry) }
{
    let Some((copy, from, to)) = values.three() else {
        return Err(OpeningCause::Fields);
    };
    if !short || !is_name(copy) || !is_name(from) || !is_name(to) {
        return Err(OpeningCause::Text);
    }
    let Some((copy, from)) = copy_and_branch(catalogue, copy, from) else {
        return Err(OpeningCause::Unknown);
    };
    let Some(to) = catalogue.branch(to) else {
        return Err(OpeningCause::Unknown);
    };
    Ok(OpeningRow::Transit { copy, from, to })
}
