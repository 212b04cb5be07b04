//! Ending the file of a journal.

use crate::fault::LibraryJournalFault;
use hd_durable::DurableJournal;
use hd_journal_file::JournalFile;
use hd_turn_store::{Alter, Connection, FileStore, Start, end};
use sqlite_disk::Disk;

/// Ends the file of a journal well: all its turns are then in the database file alone.
///
/// # Errors
/// The system refuses it; its log then has what it lacks.
pub fn end_journal<D: Disk + Drop, F: Start>(
    journal: DurableJournal<JournalFile<FileStore<D>, F>>,
) -> Result<(), LibraryJournalFault> {
    end_kept(connection_of(journal))
}

/// The fault for which the file of a journal is ended. A second fault, of the ending, isn't reported: its
/// log then has what it lacks.
pub(crate) fn ended_for<D: Disk + Drop, F: Start>(
    journal: DurableJournal<JournalFile<FileStore<D>, F>>,
    fault: LibraryJournalFault,
) -> LibraryJournalFault {
    let _ended = end_journal(journal);
    fault
}

/// Ends a journal's file well, by its connection.
///
/// # Errors
/// Those of `end_journal`.
pub fn end_kept<D: Disk + Drop>(conn: Connection<FileStore<D>>) -> Result<(), LibraryJournalFault> {
    match end(conn) {
        Ok(_) => Ok(()),
        Err((fault, store)) => {
            drop(store.close());
            Err(LibraryJournalFault::from(fault))
        }
    }
}

/// The connection to a journal's file, which is left.
fn connection_of<S: Alter + Drop, F: Start>(
    journal: DurableJournal<JournalFile<S, F>>,
) -> Connection<S> {
    journal.into_table().into_connection()
}
