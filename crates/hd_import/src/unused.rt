//! Headings over columns from which nothing is taken.
ghost use Rattle.std.specs.Prelude.{◌≡◌, ◌∷◌, ◌++◌, [], IfErr, IfOk, List, OnOk, map, slice_index_or};
ghost use Rattle.std.specs.Prelude.{string_bytes};
ghost use Rattle.std.specs.List.{filter, list_any};
ghost use Rattle.csv.specs.Records.{fields_of};
ghost use Rattle.hd_import.specs.Columns.{columns_of};
ghost use Rattle.hd_import.specs.Faults.{IsSheetFault, headings_of};
ghost use Rattle.hd_import.specs.Rows.{AreRowsOfFile, Row};
ghost use Rattle.hd_import.specs.Unused.{is_place_of, is_unused, unused_of};
ghost use Rattle.hd_import.specs.declared.settings.Settings.{Settings};

use crate::column::{Column, Sheet};
use crate::fault::Fault;
use crate::format::Format;
use crate::importing::fault_of_file;
use crate::rows::{rows_of_file, value_at};
use crate::sources::Source;
use crate::values::place_of;
use csv::StringRecord;
use std::alloc::{AllocError, Global};

/// The headings of a sheet's file over columns from which [`import`](crate::import) takes nothing, in their
/// order: those that name no column of the sheet, and those that name one for a second time.
///
/// # Errors
/// The file's rows can't be read; `import` reports the same of it.
pub fn unused_headings<'a>(
    alloc: Global,
    format: Format,
    sheet: Sheet,
    file: Source<'a>,
) -> Result<Vec<String>, Fault<'a>>
    ensures unused { IfOk result (λ unused. (rows : List Row)
        × AreRowsOfFile format file.entry.bytes.now rows
        × (map string_bytes unused.items ≡ unused_of sheet (headings_of rows))) }
    ensures refused { IfErr result
        (λ fault. (settings : Settings) → IsSheetFault settings format sheet file.entry fault) }
{
    let rows = match rows_of_file(alloc, format, file.bytes) {
        Ok(rows) => rows,
        Err(fault) => return Err(fault_of_file(format, file, fault)),
    };
    let Some(headings) = rows.as_slice().first() else {
        return Ok(Vec::new(alloc));
    };
    match unused_of(alloc, sheet, headings) {
        Ok(unused) => Ok(unused),
        Err(_) => Err(Fault::Memory),
    }
}

/// Those of these headings over columns from which nothing is taken.
fn unused_of(
    alloc: Global,
    sheet: Sheet,
    headings: &StringRecord,
) -> Result<Vec<String>, AllocError>
    ensures { IfOk result
        (λ unused. map string_bytes unused.items ≡ unused_of sheet (fields_of headings.now)) }
{
    let mut unused = Vec::new(alloc);
    for place in 0..headings.len() {
        push_unused(alloc, &mut unused, sheet, headings, place)?;
    }
    Ok(unused)
}

/// Appends the heading above a place, if it isn't used.
fn push_unused(
    alloc: Global,
    unused: &mut Vec<String>,
    sheet: Sheet,
    headings: &StringRecord,
    place: usize,
) -> Result<(), AllocError>
    ensures { OnOk result (map string_bytes unused.new.items ≡ map string_bytes unused.old.items
        ++ map (λ p. slice_index_or (fields_of headings.now) p [])
        (filter (is_unused sheet (fields_of headings.now)) (place ∷ []))) }
{
    if is_unused(sheet, headings, place) {
        unused.push(String::from_str(alloc, value_at(headings, place))?)?;
    }
    Ok(())
}

/// Whether the heading at a place isn't empty, and no column of the sheet is taken from there.
fn is_unused(sheet: Sheet, headings: &StringRecord, place: usize) -> bool
    ensures { result ≡ is_unused sheet (fields_of headings.now) place }
{
    !value_at(headings, place).is_empty() && !is_taken(sheet, headings, place)
}

/// Whether a column of the sheet is taken from this place.
fn is_taken(sheet: Sheet, headings: &StringRecord, place: usize) -> bool
    ensures { result ≡ list_any (is_place_of (fields_of headings.now) place) (columns_of sheet) }
{
    let columns = sheet.columns();
    for column in columns {
        if is_place_of(headings, place, *column) {
            return true;
        }
    }
    false
}

/// Whether it is from this place that a column is taken.
fn is_place_of(headings: &StringRecord, place: usize, column: Column) -> bool
    ensures { result ≡ is_place_of (fields_of headings.now) place column }
{
    match place_of(headings, column) {
        Some(at) => at == place,
        None => false,
    }
}
