//! The first line of a file.
ghost use Rattle.std.specs.Prelude.{◌≡◌};
ghost use Rattle.hd_diagnosis.specs.Heading.{has_priorities, is_headed, without_mark};

use crate::column::Column;
use crate::values::{count_of_values, value_at};
use crate::words::{words_of_long, words_of_unfit};
use hd_catalogue::{Cause, is_long};
use std::alloc::{AllocError, Global};

/// The mark of UTF-8 that some programs put before the first line.
const BYTE_ORDER_MARK: &[u8; 3] = b"\xEF\xBB\xBF";

/// The columns of a first line that a fault may be in, by the number of the value.
const COLUMNS: &[(usize, Column); 3] = &[
    (3, Column::Institution),
    (4, Column::Offset),
    (5, Column::CommandLimit),
];

/// What a first line has to look like.
const FORMS: &str = "H|1|institution|offset|limit or H|2|institution|offset|limit";

/// A first line without the mark of UTF-8.
pub(crate) fn without_mark(line: &[u8]) -> &[u8]
    ensures { result.now ≡ without_mark line.now }
{
    if line.starts_with(BYTE_ORDER_MARK) {
        line.split_at(BYTE_ORDER_MARK.len()).1
    } else {
        line
    }
}

/// Whether this is a first line at all, so that the lines after it can be judged.
pub(crate) fn is_headed(line: &[u8]) -> bool
    ensures { result ≡ is_headed line.now }
{
    without_mark(line).starts_with(b"H|")
}

/// Whether titles have priorities in a file with this first line.
pub(crate) fn has_priorities(line: &[u8]) -> bool
    ensures { result ≡ has_priorities line.now }
{
    without_mark(line).starts_with(b"H|2|")
}

/// The words of a fault of the first line.
pub(crate) fn words_of_heading(
    alloc: Global,
    line: &[u8],
    cause: Cause,
) -> Result<String, AllocError> {
    match cause {
        Cause::Header => words_of_no_heading(alloc, line),
        Cause::Memory => String::from_str(alloc, "out of memory"),
        _ if is_long(line) => words_of_long(alloc, line),
        _ => {
            for (number, column) in COLUMNS {
                if let Some(value) = value_at(line, *number)
                    && !column.is_fit(value)
                {
                    return words_of_unfit(alloc, *column, *number, value);
                }
            }
            format!(in alloc; "it isn't {FORMS}")
        }
    }
}

/// The words of a first line that is none.
fn words_of_no_heading(alloc: Global, line: &[u8]) -> Result<String, AllocError> {
    if line.is_empty() {
        format!(in alloc; "the file has no first line, which is {FORMS}")
    } else if line.starts_with(BYTE_ORDER_MARK) {
        String::from_str(
            alloc,
            "the file begins with a byte order mark (EF BB BF): save it as UTF-8 without one",
        )
    } else if line.starts_with(b"\xFF\xFE") || line.starts_with(b"\xFE\xFF") {
        String::from_str(alloc, "the file is UTF-16: save it as UTF-8")
    } else if line.starts_with(b"H|1|") || line.starts_with(b"H|2|") {
        let count = count_of_values(line);
        format!(in alloc; "the first line has {count} values, and not the 5 of {FORMS}")
    } else if line.starts_with(b"H|") {
        format!(in alloc; "the version (value 2) isn't 1 or 2; the first line is {FORMS}")
    } else {
        format!(in alloc; "the first line isn't {FORMS}")
    }
}
