//! What is in a row, by the names of the columns.
ghost use Rattle.std.specs.Prelude.{◌≡◌, IfErr, OnOk};
ghost use Rattle.csv.specs.Records.{fields_of};
ghost use Rattle.hd_import.specs.Values.{IsHeaded, given, is_heading, is_missing, otherwise, place_of};
ghost use Rattle.hd_import.specs.Faults.{IsMissing};

use crate::column::{Column, Sheet};
use crate::rows::value_at;
use crate::settings::Settings;
use csv::StringRecord;
use itoa::Buffer;

/// Whether a heading is that of a column.
fn is_heading(column: Column, text: &str) -> bool
    ensures { result ≡ is_heading column text.now }
{
    text.eq_ignore_ascii_case(column.heading())
}

/// The place of a column, if a heading is that of it.
pub(crate) fn place_of(headings: &StringRecord, column: Column) -> Option<usize>
    ensures { result ≡ place_of (fields_of headings.now) column }
{
    for place in 0..headings.len() {
        if is_heading(column, value_at(headings, place)) {
            return Some(place);
        }
    }
    None
}

/// What a row has in a column: nothing, where no heading is that of the column or the row ends before it.
pub(crate) fn given<'row>(
    headings: &StringRecord,
    row: &'row StringRecord,
    column: Column,
) -> &'row str
    ensures { result.now ≡ given (fields_of headings.now) (fields_of row.now) column }
{
    match place_of(headings, column) {
        Some(place) => value_at(row, place),
        None => "",
    }
}

/// What stands for a value that a row doesn't have.
pub(crate) fn otherwise<'buffer>(
    settings: &Settings<'_>,
    column: Column,
    buffer: &'buffer mut Buffer,
) -> &'buffer str
    ensures { result.now ≡ otherwise settings.now column }
{
    let number = match column {
        Column::LoanLimit => settings.loan_limit,
        Column::LoanDays => settings.loan_days,
        Column::Renewals => settings.renewals,
        Column::Priority => return "N",
        Column::Branch
        | Column::Terminal
        | Column::Password
        | Column::Patron
        | Column::Title
        | Column::Copy => None,
    };
    match number {
        Some(number) => buffer.format(number),
        None => "",
    }
}

/// Whether no heading is that of a column, and nothing stands for its values.
fn is_missing(settings: &Settings<'_>, headings: &StringRecord, column: Column) -> bool
    ensures { result ≡ is_missing settings.now (fields_of headings.now) column }
{
    let mut buffer = Buffer::new();
    place_of(headings, column).is_none() && otherwise(settings, column, &mut buffer).is_empty()
}

/// Checks that no column of a sheet is missing. The error is the first that is.
pub(crate) fn check_headings(
    settings: &Settings<'_>,
    sheet: Sheet,
    headings: &StringRecord,
) -> Result<(), Column>
    ensures headed { OnOk result (IsHeaded settings.now sheet (fields_of headings.now)) }
    ensures refused { IfErr result (IsMissing settings.now sheet (fields_of headings.now)) }
{
    let columns = sheet.columns();
    for column in columns {
        if is_missing(settings, headings, *column) {
            return Err(*column);
        }
    }
    Ok(())
}
