//! Why a journal can't be used.
ghost use Rattle.std.specs.Prelude.{◌≡◌};
ghost use Rattle.hd_turn_store.specs.Faults.{opening_fault, writing_fault, reading_fault, IsWritingFault};
ghost use Rattle.hd_turn_store.specs.Faults.{IsReadingFault};

use sqlite::{Error as SqlError, ErrorCode};
use thiserror::Error;

/// Why a journal can't be used, printed as one line.
#[derive(Clone, Copy, Debug, PartialEq, Eq, Error)]
pub enum Fault {
    /// Another program has the file open.
    #[error("another program has the journal open")]
    Busy,
    /// The system refuses to open the file.
    #[error("cannot open the journal")]
    CannotOpen,
    /// The file's pages aren't sound, or a row isn't of this form.
    #[error("the journal is damaged")]
    Damaged,
    /// It is no database, or one with other tables.
    #[error("not a journal of holddesk")]
    NotAJournal,
    /// The journal was written in this other format.
    #[error("format {0} isn't known")]
    UnknownFormat(u32),
    /// The disk is full.
    #[error("the journal can't be written: the disk is full")]
    DiskFull,
    /// The system refused a write.
    #[error("the journal can't be written")]
    CannotWrite,
    /// The disk refused a read.
    #[error("the journal can't be read")]
    CannotRead,
    /// Out of memory.
    #[error("out of memory")]
    Memory,
}

impl Fault {
    /// What an error of an open is told as.
    pub(crate) fn of_opening(error: SqlError) -> Fault
        ensures { result ≡ opening_fault error }
    {
        match error {
            SqlError::SqliteFailure(ErrorCode::DatabaseBusy) => Fault::Busy,
            SqlError::SqliteFailure(ErrorCode::CannotOpen) => Fault::CannotOpen,
            SqlError::SqliteFailure(ErrorCode::NotADatabase) => Fault::NotAJournal,
            SqlError::SqliteFailure(ErrorCode::DatabaseCorrupt) => Fault::Damaged,
            SqlError::SqliteFailure(ErrorCode::OutOfMemory) => Fault::Memory,
            SqlError::SqliteFailure(ErrorCode::DiskFull) => Fault::DiskFull,
            _ => Fault::CannotRead,
        }
    }

    /// What an error of a write is told as.
    pub(crate) fn of_writing(error: SqlError) -> Fault
        ensures value { result ≡ writing_fault error }
        ensures kind { IsWritingFault result }
    {
        match error {
            SqlError::SqliteFailure(ErrorCode::OutOfMemory) => Fault::Memory,
            SqlError::SqliteFailure(ErrorCode::DiskFull) => Fault::DiskFull,
            _ => Fault::CannotWrite,
        }
    }

    /// What an error of a read is told as.
    pub(crate) fn of_reading(error: SqlError) -> Fault
        ensures value { result ≡ reading_fault error }
        ensures kind { IsReadingFault result }
    {
        match error {
            SqlError::SqliteFailure(ErrorCode::OutOfMemory) => Fault::Memory,
            SqlError::SqliteFailure(ErrorCode::DatabaseCorrupt) => Fault::Damaged,
            SqlError::SqlInputError(_) => Fault::NotAJournal,
            SqlError::InvalidColumnType(_, _)
            | SqlError::IntegralValueOutOfRange(_)
            | SqlError::Utf8Error(_) => Fault::Damaged,
            _ => Fault::CannotRead,
        }
    }
}
