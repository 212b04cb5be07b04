//! Why a journal's file can't be opened.

ghost use Rattle.std.specs.Prelude.{◌≡◌};
ghost use Rattle.hd_journal_file.specs.declared.open_fault.OpenFault.TheVariants.{File, Turns, Memory};

use crate::fault::RestoreFault;
use hd_turn_row::{Column, RowFault};
use hd_turn_store::Fault;
use std::alloc::AllocError;
use std::fmt;

/// Why a journal's file can't be opened, printed as one line.
#[derive(Clone, Copy, Debug, PartialEq, Eq)]
pub enum OpenFault {
    /// The file can't be opened, read or written, or is no journal of holddesk.
    File(Fault),
    /// It was written with another catalogue, and that isn't accepted.
    OtherCatalogue,
    /// Its turns can't be taken again.
    Turns(RestoreFault),
    /// Out of memory.
    Memory,
}

impl From<Fault> for OpenFault {
    ghost from_gives = { λ why fault. fault ≡ File why };

    fn from(fault: Fault) -> OpenFault {
        OpenFault::File(fault)
    }
}

impl From<RestoreFault> for OpenFault {
    ghost from_gives = { λ why fault. fault ≡ Turns why };

    fn from(fault: RestoreFault) -> OpenFault {
        OpenFault::Turns(fault)
    }
}

impl From<AllocError> for OpenFault {
    ghost from_gives = { λ _ fault. fault ≡ Memory };

    fn from(_: AllocError) -> OpenFault {
        OpenFault::Memory
    }
}

impl fmt::Display for OpenFault {
    fn fmt<W: fmt::Write>(&self, f: &mut fmt::Formatter<W>) -> fmt::Result {
        match self {
            OpenFault::File(fault) | OpenFault::Turns(RestoreFault::Unread(fault)) => {
                write!(f, "{fault}")
            }
            OpenFault::OtherCatalogue => {
                write!(f, "the journal was written with another catalogue")
            }
            OpenFault::Turns(RestoreFault::NoTurn { at, why }) => write_no_turn(f, *at, *why),
            OpenFault::Turns(RestoreFault::NoChange { at }) => {
                write!(f, "turn {at} repeats one before")
            }
            OpenFault::Turns(RestoreFault::Differs { at, .. }) => {
                write!(f, "turn {at} is answered otherwise now")
            }
            OpenFault::Turns(RestoreFault::TooMany) => write!(f, "the journal has too many turns"),
            OpenFault::Turns(RestoreFault::Memory) | OpenFault::Memory => {
                write!(f, "out of memory")
            }
        }
    }
}

/// Writes what is wrong with the row of a number.
fn write_no_turn<W: fmt::Write>(f: &mut fmt::Formatter<W>, at: u32, why: RowFault) -> fmt::Result {
    match why {
        RowFault::UnknownName(column) => {
            let named = word_of(column);
            write!(f, "turn {at} names a {named} that the catalogue lacks")
        }
        RowFault::UnknownWord(column)
        | RowFault::NoDay(column)
        | RowFault::Wanting(column)
        | RowFault::Unwanted(column) => {
            let named = word_of(column);
            write!(
                f,
                "the journal is damaged: turn {at} is no turn by its {named}"
            )
        }
    }
}

/// A column's word in the file.
fn word_of(column: Column) -> &'static str {
    match column {
        Column::Terminal => "terminal",
        Column::Day => "day",
        Column::Act => "act",
        Column::Patron => "patron",
        Column::Copy => "copy",
        Column::Title => "title",
        Column::Branch => "branch",
        Column::Admits => "admits",
        Column::Until => "until",
    }
}
