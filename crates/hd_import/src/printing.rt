//! How faults are printed.

use crate::column::Column;
use crate::fault::{Fault, Place};
use hd_catalogue::is_name;
use std::error::Error;
use std::fmt;

/// `path:line`, as `copies.csv:17`.
impl fmt::Display for Place<'_> {
    fn fmt<W: fmt::Write>(&self, f: &mut fmt::Formatter<W>) -> fmt::Result {
        let path = self.path;
        let line = self.line;
        write!(f, "{path}:{line}")
    }
}

impl Column {
    /// What the catalogue takes in the place of the column.
    fn wanted(self) -> &'static str {
        match self {
            Column::LoanLimit => "a number from 0 to 999",
            Column::LoanDays => "a number from 0 to 3650",
            Column::Renewals => "a number from 0 to 99",
            Column::Priority => "L or N",
            Column::Branch
            | Column::Terminal
            | Column::Password
            | Column::Patron
            | Column::Title
            | Column::Copy => "1 to 60 printable bytes, none of them a bar",
        }
    }
}

/// The file, the line, the column, and what is wrong there.
impl fmt::Display for Fault<'_> {
    fn fmt<W: fmt::Write>(&self, f: &mut fmt::Formatter<W>) -> fmt::Result {
        match self {
            Fault::Institution => {
                write!(
                    f,
                    "the institution isn't 1 to 60 printable bytes, none of them a bar"
                )
            }
            Fault::NotUtf8 { path, line } => write!(f, "{path}:{line}: not UTF-8"),
            Fault::OpenQuote { path, line } => write!(f, "{path}:{line}: a quote isn't closed"),
            Fault::NoColumn { path, column } => {
                write!(f, "{path}:1: no column '{}'", column.heading())
            }
            Fault::Value {
                place,
                column,
                value,
            } => {
                let heading = column.heading();
                let wanted = column.wanted();
                if value.is_empty() {
                    write!(f, "{place}: {heading}: nothing, and not {wanted}")
                } else if is_name(value.as_bytes()) {
                    write!(f, "{place}: {heading}: '{value}' is not {wanted}")
                } else {
                    write!(f, "{place}: {heading}: not {wanted}")
                }
            }
            Fault::Double {
                place,
                column,
                value,
            } => write!(
                f,
                "{place}: {}: '{value}' stands in an earlier row",
                column.heading()
            ),
            Fault::Unknown {
                place,
                column,
                value,
                of,
            } => {
                let heading = column.heading();
                write!(f, "{place}: {heading}: '{value}' is no {heading} of {of}")
            }
            Fault::TooMany { place } => write!(f, "{place}: more rows than a catalogue may have"),
            Fault::Refused(fault) => write!(f, "the catalogue file would be refused: {fault}"),
            Fault::Memory => write!(f, "out of memory"),
        }
    }
}

impl Error for Fault<'_> {}
