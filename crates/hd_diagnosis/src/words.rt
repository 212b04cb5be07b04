//! The words of faults after the first line.

use crate::column::Column;
use crate::kind::Kind;
use crate::known::Known;
use crate::printable::quoted;
use crate::unknown::{Behind, words_of_unknown};
use crate::values::{count_of_values, value_at};
use hd_catalogue::{Cause, is_long, is_name};
use std::alloc::{AllocError, Global};

/// The words of a fault of a line after the first, where these names are defined before it.
pub(crate) fn words_of(
    alloc: Global,
    known: &Known,
    line: &[u8],
    cause: Cause,
    behind: Behind<'_>,
) -> Result<String, AllocError> {
    let letter = value_at(line, 1).unwrap_or(b"");
    let Some(kind) = Kind::of(letter) else {
        return words_of_letter(alloc, line, letter);
    };
    match cause {
        Cause::Fields => words_of_count(alloc, kind, known.has_priorities, line),
        Cause::Text | Cause::Number => words_of_values(alloc, kind, known, line, cause),
        Cause::Double => words_of_double(alloc, kind, known, line),
        Cause::Unknown => words_of_unknown(alloc, kind, known, line, behind),
        Cause::Limit => format!(in alloc; "there are as many as a catalogue may have before it"),
        Cause::Memory => format!(in alloc; "out of memory"),
        Cause::Header | Cause::Kind => words_of_letter(alloc, line, letter),
    }
}

/// The words of a line that begins with no letter of a kind.
fn words_of_letter(alloc: Global, line: &[u8], letter: &[u8]) -> Result<String, AllocError> {
    if line.is_empty() {
        return format!(in alloc; "the line is empty");
    }
    if letter == b"H".as_slice() {
        return format!(in alloc; "a first line stands in line 1 alone");
    }
    let shown = quoted(alloc, letter)?;
    let hint = if letter.len() < line.len() {
        ""
    } else {
        ": no bar (|) parts the values of this line"
    };
    format!(in alloc; "it begins with {shown}, and not with B, S, P, T or C{hint}")
}

/// The words of a line with too few or too many values.
fn words_of_count(
    alloc: Global,
    kind: Kind,
    has_priorities: bool,
    line: &[u8],
) -> Result<String, AllocError> {
    let count = count_of_values(line);
    let form = kind.form(has_priorities);
    let hint = if kind != Kind::Title {
        ""
    } else if has_priorities && count == 4 {
        ": the priority, L or N, is missing"
    } else if !has_priorities && count == 5 {
        ": a priority may stand in a file that begins with H|2"
    } else {
        ""
    };
    format!(in alloc; "it has {count} values, and isn't {form}{hint}")
}

/// The words of a line of which a text or a number is wrong.
fn words_of_values(
    alloc: Global,
    kind: Kind,
    known: &Known,
    line: &[u8],
    cause: Cause,
) -> Result<String, AllocError> {
    if is_long(line) {
        return words_of_long(alloc, line);
    }
    let columns = kind.columns(known.has_priorities);
    let mut number = 2usize;
    for column in columns {
        let is_wanted = column.range().is_some() == matches!(cause, Cause::Number);
        if let Some(value) = value_at(line, number)
            && is_wanted
            && !column.is_fit(value)
        {
            return words_of_unfit(alloc, *column, number, value);
        }
        number = number.saturating_add(1);
    }
    let form = kind.form(known.has_priorities);
    format!(in alloc; "it isn't {form}")
}

/// The words of a line that is too long.
pub(crate) fn words_of_long(alloc: Global, line: &[u8]) -> Result<String, AllocError> {
    let count = line.len();
    format!(in alloc; "the line has {count} bytes, and at most 1024 may be")
}

/// The words of a value that the catalogue doesn't take in its column.
pub(crate) fn words_of_unfit(
    alloc: Global,
    column: Column,
    number: usize,
    value: &[u8],
) -> Result<String, AllocError> {
    let word = column.word();
    if value.is_empty() {
        return format!(in alloc; "{word} (value {number}) is empty");
    }
    let shown = quoted(alloc, value)?;
    if let Some(range) = column.range() {
        let hint = hint_of_number(value);
        return format!(in alloc;
            "{word} (value {number}) {shown} isn't a number from {range}{hint}"
        );
    }
    if column == Column::Priority {
        return format!(in alloc; "{word} (value {number}) {shown} isn't L or N");
    }
    let count = value.len();
    if count > 60 {
        return format!(in alloc;
            "{word} (value {number}) has {count} bytes, and at most 60 may be: {shown}"
        );
    }
    let hint = hint_of_name(value);
    format!(in alloc; "{word} (value {number}) {shown} has {hint}")
}

/// What is wrong with a number, as far as its form shows it.
fn hint_of_number(value: &[u8]) -> &'static str {
    match value {
        [] => "",
        [b' ', ..] => ": a blank stands before it",
        [.., b' '] => ": a blank stands behind it",
        [b'"', ..] => ": it stands in quotes",
        [b'+', ..] => ": write it without the +",
        [b'0', _, ..] => ": write it without the 0 before it",
        _ => {
            if value.iter().all(|byte| byte.is_ascii_digit()) {
                ""
            } else {
                ": write it in digits"
            }
        }
    }
}

/// What a value has that no name may have.
fn hint_of_name(value: &[u8]) -> &'static str {
    if value.contains(&b'\t') {
        "a tab"
    } else if value.contains(&b'\r') {
        "a carriage return"
    } else {
        "a byte that isn't printable"
    }
}

/// The words of a name that is defined twice.
fn words_of_double(
    alloc: Global,
    kind: Kind,
    known: &Known,
    line: &[u8],
) -> Result<String, AllocError> {
    let name = value_at(line, 2).unwrap_or(b"");
    let earlier = known.names_of(kind).line_of(name).unwrap_or(0);
    let word = kind.word();
    let shown = quoted(alloc, name)?;
    format!(in alloc; "{word} {shown} (value 2) is defined in line {earlier} already")
}
