//! Why a library isn't set up, or what is read beside it.
ghost use Rattle.std.specs.Prelude.{◌≡◌};
ghost use Rattle.hd_library.specs.Faults.{fault_of_desk, fault_of_opening, line_of};
ghost use Rattle.hd_library.specs.declared.fault.SetupFault.TheVariants.{UnfitRow};

use hd_catalogue::{CatFault, OpeningFault as UnfitOpening};
use hd_desk::{OpenFault as DeskFault, RowFault};
use hd_opening::OpeningFault;
use hd_patrons::PatronsFault;
use hd_zone::ReadFault;
use std::alloc::AllocError;
use std::fmt;
use thiserror::Error;

/// Why a library isn't set up, or what is read beside it, printed as one line.
#[derive(Drop, Error)]
pub enum SetupFault {
    /// A file of a library can't be read.
    #[error("cannot read the {kind} {path}: {why}")]
    CannotRead {
        /// What it is, as `catalogue`.
        kind: &'static str,
        /// Its path.
        path: String,
        /// The system's reason.
        why: String,
    },
    /// Another file can't be read: its path, and the system's reason.
    #[error("cannot read {0}")]
    CannotReadFile(String),
    /// A zone's file at this path can't be read, or has no offset, for this reason.
    #[error("cannot read the zone {0}")]
    CannotReadZone(String),
    /// The catalogue file is refused.
    #[error("catalogue {0}")]
    Catalogue(CatFault),
    /// The catalogue file isn't UTF-8, as its names in a journal's file have to be.
    #[error("a journal's file holds names in UTF-8, and the catalogue isn't")]
    CatalogueIsNoText,
    /// A catalogue file with another offset isn't read as that.
    #[error("the offset is not taken")]
    OffsetNotTaken,
    /// The opening file is refused.
    #[error("{0}")]
    Opening(OpeningFault),
    /// A row of the opening file says what was said already.
    #[error("opening line {line}: DOUBLE")]
    DoubleRow {
        /// Its line, from 1.
        line: usize,
    },
    /// A row of the opening file tells of a hold that isn't there.
    #[error("opening line {line}: UNKNOWN")]
    RowWithoutHold {
        /// Its line, from 1.
        line: usize,
    },
    /// A row of the opening file has a number out of its bounds.
    #[error("opening line {line}: NUMBER")]
    UnfitRow {
        /// Its line, from 1.
        line: usize,
    },
    /// The patrons' file is refused.
    #[error("{0}")]
    Patrons(PatronsFault),
    /// The file of the names that joined a library has other bytes than were written.
    #[error("the names that joined were changed: {0}")]
    JoinedChanged(String),
    /// Out of memory.
    #[error("no memory")]
    Memory,
}

// Written out, since the proof of the derived one takes as long as that of thirty functions.
impl fmt::Debug for SetupFault {
    fn fmt<W: fmt::Write>(&self, f: &mut fmt::Formatter<W>) -> fmt::Result {
        write!(f, "{self}")
    }
}

impl From<CatFault> for SetupFault {
    fn from(fault: CatFault) -> SetupFault {
        SetupFault::Catalogue(fault)
    }
}

impl From<ReadFault> for SetupFault {
    fn from(fault: ReadFault) -> SetupFault {
        match fault {
            ReadFault::Catalogue(fault) => SetupFault::Catalogue(fault),
            ReadFault::Memory => SetupFault::Memory,
            ReadFault::NotMoved => SetupFault::OffsetNotTaken,
        }
    }
}

impl From<DeskFault> for SetupFault {
    ghost from_gives = { λ why fault. fault ≡ fault_of_desk why };

    fn from(fault: DeskFault) -> SetupFault {
        match fault {
            DeskFault::Memory => SetupFault::Memory,
            DeskFault::Row { at, cause } => {
                let line = line_of(at);
                match cause {
                    RowFault::Twice => SetupFault::DoubleRow { line },
                    RowFault::NoHold => SetupFault::RowWithoutHold { line },
                }
            }
        }
    }
}

impl From<UnfitOpening> for SetupFault {
    ghost from_gives = { λ why fault. fault ≡ fault_of_opening why };

    fn from(fault: UnfitOpening) -> SetupFault {
        match fault {
            UnfitOpening::Last => SetupFault::UnfitRow { line: 1 },
            UnfitOpening::Row { index } => unfit_row(index),
        }
    }
}

/// The fault that the row has a number out of its bounds that has so many before it.
fn unfit_row(rows: usize) -> SetupFault
    ensures { result ≡ UnfitRow (line_of rows) }
{
    SetupFault::UnfitRow {
        line: line_of(rows),
    }
}

/// The line of an opening file on which the row stands that has so many before it.
fn line_of(rows: usize) -> usize
    ensures { result ≡ line_of rows }
{
    rows.saturating_add(2)
}

impl From<OpeningFault> for SetupFault {
    fn from(fault: OpeningFault) -> SetupFault {
        SetupFault::Opening(fault)
    }
}

impl From<AllocError> for SetupFault {
    fn from(_: AllocError) -> SetupFault {
        SetupFault::Memory
    }
}
