//! Why the journal of a library isn't opened, or ended.
ghost use Rattle.std.specs.Prelude.{◌≡◌};
ghost use Rattle.hd_library_journal.specs.declared.fault.LibraryJournalFault.TheVariants.{Journal};

use hd_folder::FolderFault;
use hd_journal::WriteFault;
use hd_journal_file::OpenFault;
use hd_library::SetupFault;
use hd_turn_store::Fault as StoreFault;
use std::alloc::{AllocError, AllocFailed};
use std::{fmt, io};
use thiserror::Error;

/// Why the journal of a library isn't begun, opened or ended, printed as one line.
#[derive(Drop, Error)]
pub enum LibraryJournalFault {
    /// A library isn't set up.
    #[error("{0}")]
    Setup(SetupFault),
    /// A folder, or a file in it, isn't as a command needs it.
    #[error("{0}")]
    Folder(FolderFault),
    /// The journal's file can't be opened or ended.
    #[error("{0}")]
    Journal(OpenFault),
    /// A turn couldn't be written.
    #[error("the journal can't be written: {0}")]
    Unwritten(WriteFault),
    /// The system has no clock.
    #[error("the system has no clock")]
    NoClock,
    /// Standard error can't be written.
    #[error("cannot write")]
    CannotWrite,
    /// Out of memory.
    #[error("no memory")]
    Memory,
}

// Written out, since the proof of the derived one takes as long as that of thirty functions.
impl fmt::Debug for LibraryJournalFault {
    fn fmt<W: fmt::Write>(&self, f: &mut fmt::Formatter<W>) -> fmt::Result {
        write!(f, "{self}")
    }
}

impl From<SetupFault> for LibraryJournalFault {
    fn from(fault: SetupFault) -> LibraryJournalFault {
        LibraryJournalFault::Setup(fault)
    }
}

impl From<FolderFault> for LibraryJournalFault {
    fn from(fault: FolderFault) -> LibraryJournalFault {
        LibraryJournalFault::Folder(fault)
    }
}

impl From<OpenFault> for LibraryJournalFault {
    ghost from_gives = { λ why fault. fault ≡ Journal why };

    fn from(fault: OpenFault) -> LibraryJournalFault {
        LibraryJournalFault::Journal(fault)
    }
}

impl From<WriteFault> for LibraryJournalFault {
    fn from(fault: WriteFault) -> LibraryJournalFault {
        LibraryJournalFault::Unwritten(fault)
    }
}

impl From<StoreFault> for LibraryJournalFault {
    fn from(fault: StoreFault) -> LibraryJournalFault {
        LibraryJournalFault::Journal(OpenFault::File(fault))
    }
}

impl From<AllocError> for LibraryJournalFault {
    fn from(_: AllocError) -> LibraryJournalFault {
        LibraryJournalFault::Memory
    }
}

impl<T: Drop> From<AllocFailed<T>> for LibraryJournalFault {
    fn from(_: AllocFailed<T>) -> LibraryJournalFault {
        LibraryJournalFault::Memory
    }
}

/// What fails is a write to standard error. For a file or the clock each caller has its own fault.
impl From<io::Error> for LibraryJournalFault {
    fn from(_: io::Error) -> LibraryJournalFault {
        LibraryJournalFault::CannotWrite
    }
}
