//! Why a folder, or a file in it, isn't as a command needs it.

use std::alloc::{AllocError, AllocFailed, Global};
use std::{fmt, io};
use thiserror::Error;

/// Why a folder, or a file in it, isn't as a command needs it, printed as one line.
#[derive(Drop, Error)]
pub enum FolderFault {
    /// A file or a folder can't be read: its path, and the system's reason.
    #[error("cannot read {0}")]
    CannotRead(String),
    /// There is no such folder.
    #[error("there is no folder {0}")]
    NoFolder(String),
    /// There is no complete library in this folder.
    #[error("there is no library in {0}")]
    NoLibrary(String),
    /// A library lacks this file, which it had.
    #[error("the library lacks {0}")]
    Lacks(String),
    /// The library has gone on meanwhile, as from 0001 to 0002: what would be done to it would be lost.
    #[error("the library went {0} meanwhile: say it again")]
    GoneOn(String),
    /// There is no journal at this path.
    #[error("there is no journal at {0}")]
    NoJournal(String),
    /// There is one at this path, where one was to be begun.
    #[error("there is a journal at {0}")]
    JournalIsThere(String),
    /// A journal's log is missing, which may have had the last turns.
    #[error("the journal's log is missing")]
    NoLog,
    /// A journal's log is at this path, and the journal is missing.
    #[error("there is the log {0}, and not its journal")]
    LogAlone(String),
    /// A file is at this path, where one was to be written.
    #[error("there is a file at {0}")]
    FileIsThere(String),
    /// A file can't be written: its path, and the system's reason.
    #[error("cannot write {0}")]
    CannotWrite(String),
    /// A file has its name, and its folder can't be synced.
    #[error("{path} has its name, but it isn't certain that the disk keeps it: {why}")]
    NotCertain {
        /// The file's path.
        path: String,
        /// The system's reason.
        why: String,
    },
    /// The disk on which a journal's file is is full.
    #[error("the journal can't be written: the disk is full")]
    DiskFull,
    /// Out of memory.
    #[error("no memory")]
    Memory,
}

// Written out, since the proof of the derived one takes as long as that of thirty functions.
impl fmt::Debug for FolderFault {
    fn fmt<W: fmt::Write>(&self, f: &mut fmt::Formatter<W>) -> fmt::Result {
        write!(f, "{self}")
    }
}

impl From<AllocError> for FolderFault {
    fn from(_: AllocError) -> FolderFault {
        FolderFault::Memory
    }
}

impl<T: Drop> From<AllocFailed<T>> for FolderFault {
    fn from(_: AllocFailed<T>) -> FolderFault {
        FolderFault::Memory
    }
}

/// The fault that a file or a folder can't be read: its path, and the system's reason.
///
/// # Errors
/// Out of memory.
pub(crate) fn cannot_read(
    alloc: Global,
    path: &str,
    why: &io::Error,
) -> Result<FolderFault, AllocError> {
    Ok(FolderFault::CannotRead(format!(in alloc; "{path}: {why}")?))
}

/// The fault that a file can't be written: its path, and the system's reason.
///
/// # Errors
/// Out of memory.
pub fn cannot_write(alloc: Global, path: &str, why: &io::Error) -> Result<FolderFault, AllocError> {
    Ok(FolderFault::CannotWrite(format!(in alloc; "{path}: {why}")?))
}
