//! The rows of a sheet.
ghost use Rattle.std.specs.Prelude.{◌≡◌, [], ◌∷◌, ◌++◌, IfErr, IfOk, OnOk, false, map, slice_index_or};
ghost use Rattle.std.specs.Prelude.{string_bytes};
ghost use Rattle.std.specs.List.{filter};
ghost use Rattle.csv.specs.Records.{fields_of};
ghost use Rattle.hd_import.specs.Rows.{AreRowsOf, AreRowsOfFile, IsEncoded, decoded, has_value};
ghost use Rattle.hd_import.specs.Rows.{heads_have, separator_found, separator_of};
ghost use Rattle.hd_import.specs.Faults.{IsRowsFault, IsTextFault};
ghost use Rattle.hd_import.specs.Quotes.{is_open_file, is_open_text};
ghost use Rattle.hd_import.specs.declared.format.Encoding.TheVariants as encoding;

use crate::format::{Encoding, Format};
use crate::quotes::open_quote;
use csv::{ReaderBuilder, StringRecord};
use hd_catalogue::first_line;
use std::alloc::{AllocError, Global};

/// Why the rows of a sheet can't be read.
#[derive(Clone, Copy, PartialEq, Eq, Debug)]
pub(crate) enum RowsFault {
    /// The file isn't UTF-8: this many bytes at its start are, and the next ones aren't.
    NotUtf8(usize),
    /// The quote at this place of the file's text isn't closed.
    OpenQuote(usize),
    /// Out of memory.
    Memory,
}

/// The rows of a sheet's file, the headings first.
///
/// # Errors
/// The file isn't UTF-8, though that is its encoding; a quote isn't closed; out of memory.
pub(crate) fn rows_of_file(
    alloc: Global,
    format: Format,
    bytes: &[u8],
) -> Result<Vec<StringRecord>, RowsFault>
    ensures rows { IfOk result (λ rows. AreRowsOfFile format bytes.now (map fields_of rows.items)) }
    ensures encoded { OnOk result (IsEncoded format bytes.now) }
    ensures closed { OnOk result (is_open_file format bytes.now ≡ false) }
    ensures refused { IfErr result (IsRowsFault format bytes.now) }
{
    match format.encoding {
        Encoding::Utf8 => match str::from_utf8(bytes) {
            Ok(_) => rows_if_closed(alloc, separator_of(format.separator, bytes), bytes),
            Err(error) => Err(RowsFault::NotUtf8(error.valid_up_to())),
        },
        Encoding::Latin1 => {
            let Ok(text) = text_of_latin1(alloc, bytes) else {
                return Err(RowsFault::Memory);
            };
            let text = text.as_bytes();
            rows_if_closed(alloc, separator_of(format.separator, text), text)
        }
    }
}

/// The text of a file in Latin-1.
pub(crate) fn text_of_latin1(alloc: Global, bytes: &[u8]) -> Result<String, AllocError>
    ensures { IfOk result (λ text. string_bytes text ≡ decoded encoding.Latin1 bytes.now) }
{
    let mut text = String::new(alloc);
    for byte in bytes {
        text.push(char::from(*byte))?;
    }
    Ok(text)
}

/// The byte between two values: the one that is given, else the one that the first line of the text shows.
pub(crate) fn separator_of(told: Option<u8>, text: &[u8]) -> u8
    ensures { result ≡ separator_of told text.now }
{
    match told {
        Some(separator) => separator,
        None => separator_found(text),
    }
}

/// The separator that the first line of a text shows: a tab, else a semicolon, else a comma.
fn separator_found(text: &[u8]) -> u8
    ensures { result ≡ separator_found text.now }
{
    if heads_have(b'\t', text) {
        b'\t'
    } else if heads_have(b';', text) {
        b';'
    } else {
        b','
    }
}

/// Whether the first line of a text has this byte.
fn heads_have(byte: u8, text: &[u8]) -> bool
    ensures { result ≡ heads_have byte text.now }
{
    first_line(text).line.contains(&byte)
}

/// The rows of a text with this separator, if each of its quotes is closed.
///
/// # Errors
/// One isn't; out of memory.
fn rows_if_closed(alloc: Global, separator: u8, text: &[u8]) -> Result<Vec<StringRecord>, RowsFault>
    ensures rows { IfOk result (λ rows. AreRowsOf separator text.now (map fields_of rows.items)) }
    ensures closed { OnOk result (is_open_text separator text.now ≡ false) }
    ensures refused { IfErr result (IsTextFault separator text.now) }
{
    match open_quote(separator, text) {
        Some(place) => Err(RowsFault::OpenQuote(place)),
        None => rows_of_text(alloc, separator, text),
    }
}

/// The rows of a text with this separator.
///
/// # Errors
/// Out of memory: the text is in memory and UTF-8, and rows may have any length, so that no other error
/// comes.
fn rows_of_text(alloc: Global, separator: u8, text: &[u8]) -> Result<Vec<StringRecord>, RowsFault>
    ensures rows { IfOk result (λ rows. AreRowsOf separator text.now (map fields_of rows.items)) }
    ensures memory { IfErr result (λ fault. fault ≡ RowsFault.Memory) }
{
    let reader = ReaderBuilder::new()
        .has_headers(false)
        .flexible(true)
        .delimiter(separator)
        .from_reader(alloc, text);
    let mut rows = Vec::new(alloc);
    for row in reader.into_records() {
        let Ok(mut row) = row else {
            return Err(RowsFault::Memory);
        };
        if row.trim().is_err() {
            return Err(RowsFault::Memory);
        }
        if push_filled(&mut rows, row).is_err() {
            return Err(RowsFault::Memory);
        }
    }
    Ok(rows)
}

/// Appends a row, if one of its values isn't empty.
fn push_filled(rows: &mut Vec<StringRecord>, row: StringRecord) -> Result<(), AllocError>
    ensures { OnOk result (map fields_of rows.new.items
        ≡ map fields_of rows.old.items ++ filter has_value (fields_of row ∷ [])) }
{
    if has_value(&row) {
        rows.push(row)?;
    }
    Ok(())
}

/// Whether one of a row's values isn't empty.
fn has_value(row: &StringRecord) -> bool
    ensures { result ≡ has_value (fields_of row.now) }
{
    for place in 0..row.len() {
        if !value_at(row, place).is_empty() {
            return true;
        }
    }
    false
}

/// The value in a place of a row: nothing where the row ends before it.
pub(crate) fn value_at(row: &StringRecord, place: usize) -> &str
    ensures { result.now ≡ slice_index_or (fields_of row.now) place [] }
{
    match row.get(place) {
        Some(value) => value,
        None => "",
    }
}
