//! Why a command over a journal's file fails.

use hd_folder::FolderFault;
use hd_journal::WriteFault;
use hd_library::SetupFault;
use hd_library_journal::LibraryJournalFault;
use hd_terminal_output::ListFault;
use std::alloc::{AllocError, AllocFailed};
use std::{fmt, io};
use thiserror::Error;

/// Why a command over a journal's file fails, printed as one line.
#[derive(Drop, Error)]
pub enum JournalCommandFault {
    /// The journal isn't begun, opened or ended.
    #[error("{0}")]
    Journal(LibraryJournalFault),
    /// A library isn't set up.
    #[error("{0}")]
    Setup(SetupFault),
    /// A folder, or a file in it, isn't as a command needs it.
    #[error("{0}")]
    Folder(FolderFault),
    /// A list isn't printed.
    #[error("{0}")]
    List(ListFault),
    /// There is a library in this folder, where one was to be begun.
    #[error("there is a library in {0}")]
    LibraryIsThere(String),
    /// What is in the way of a library that is to be carried over, a line for each thing.
    #[error("{0}")]
    InTheWay(String),
    /// So many numbers have been given that no more can be carried over.
    #[error("the numbers are used up")]
    NumbersUsedUp,
    /// Of an opening that was written other bytes were read back.
    #[error("not carried over")]
    NotCarriedOver,
    /// With the names that were to join it a library isn't set up.
    #[error("with the names that join, the library's {0}")]
    NotJoined(SetupFault),
    /// With the old names that are still needed the new catalogue isn't accepted.
    #[error("with the names that are kept, the new {0}")]
    NotKept(SetupFault),
    /// More names would go than may, a line for each kind.
    #[error("{0}")]
    TooManyGone(String),
    /// What the command prints can't be written.
    #[error("cannot write")]
    CannotWrite,
    /// Out of memory.
    #[error("no memory")]
    Memory,
}

// Written out, since the proof of the derived one takes as long as that of thirty functions.
impl fmt::Debug for JournalCommandFault {
    fn fmt<W: fmt::Write>(&self, f: &mut fmt::Formatter<W>) -> fmt::Result {
        write!(f, "{self}")
    }
}

impl From<LibraryJournalFault> for JournalCommandFault {
    fn from(fault: LibraryJournalFault) -> JournalCommandFault {
        JournalCommandFault::Journal(fault)
    }
}

impl From<SetupFault> for JournalCommandFault {
    fn from(fault: SetupFault) -> JournalCommandFault {
        JournalCommandFault::Setup(fault)
    }
}

impl From<FolderFault> for JournalCommandFault {
    fn from(fault: FolderFault) -> JournalCommandFault {
        JournalCommandFault::Folder(fault)
    }
}

impl From<ListFault> for JournalCommandFault {
    fn from(fault: ListFault) -> JournalCommandFault {
        JournalCommandFault::List(fault)
    }
}

impl From<WriteFault> for JournalCommandFault {
    fn from(fault: WriteFault) -> JournalCommandFault {
        JournalCommandFault::Journal(LibraryJournalFault::Unwritten(fault))
    }
}

impl From<AllocError> for JournalCommandFault {
    fn from(_: AllocError) -> JournalCommandFault {
        JournalCommandFault::Memory
    }
}

impl<T: Drop> From<AllocFailed<T>> for JournalCommandFault {
    fn from(_: AllocFailed<T>) -> JournalCommandFault {
        JournalCommandFault::Memory
    }
}

/// What fails is a write of what the command prints. For a file each caller has its own fault.
impl From<io::Error> for JournalCommandFault {
    fn from(_: io::Error) -> JournalCommandFault {
        JournalCommandFault::CannotWrite
    }
}
