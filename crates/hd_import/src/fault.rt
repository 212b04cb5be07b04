//! Why sheets make no catalogue file.

use crate::column::{Column, Sheet};
use hd_catalogue::CatFault;

/// A row of a sheet.
#[derive(Clone, Copy, PartialEq, Eq, Debug)]
pub struct Place<'a> {
    /// Which sheet it is.
    pub sheet: Sheet,
    /// The path of its file.
    pub path: &'a str,
    /// The line of the file in which the row begins, from 1.
    pub line: usize,
    /// How many rows are before it, the headings and rows without a value not counted.
    pub row: usize,
}

/// Why sheets make no catalogue file.
#[derive(Debug, Drop)]
pub enum Fault<'a> {
    /// The institution isn't 1 to 60 printable bytes, none of them a bar.
    Institution,
    /// The file isn't UTF-8, from this line on.
    NotUtf8 {
        path: &'a str,
        line: usize,
    },
    /// A quote isn't closed: the one in this line. The file ends within a value in quotes, or such a value,
    /// which has the end of a line, goes on after its quotes. Rows would be lost in it.
    OpenQuote {
        path: &'a str,
        line: usize,
    },
    /// No heading is that of a column that the sheet needs.
    NoColumn {
        path: &'a str,
        column: Column,
    },
    /// The catalogue doesn't take what a row says in a column.
    Value {
        place: Place<'a>,
        column: Column,
        value: String,
    },
    /// An earlier row of the sheet has the same name.
    Double {
        place: Place<'a>,
        column: Column,
        value: String,
    },
    /// What a row names isn't in the sheet that has its kind.
    Unknown {
        place: Place<'a>,
        column: Column,
        value: String,
        /// The path of that sheet.
        of: &'a str,
    },
    /// The sheet has more rows than a catalogue may have.
    TooMany {
        place: Place<'a>,
    },
    /// The catalogue file that the sheets would make is refused for another cause, or in a line of no row.
    Refused(CatFault),
    /// Out of memory.
    Memory,
}
