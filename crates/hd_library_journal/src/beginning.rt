//! Beginning the file of a journal.

use crate::ending::end_kept;
use crate::fault::LibraryJournalFault;
use hd_folder::{cannot_write, own_file};
use hd_turn_store::{Unknown, connect, open};

/// Begins the journal of a library with this digest at a path. All of it is then in the database file, which
/// its owner alone may read and write.
///
/// # Errors
/// The system refuses it; out of memory.
pub fn begin_at(
    rt: &HostRuntime,
    path: &str,
    digest: &[u8; 32],
) -> Result<(), LibraryJournalFault> {
    make_at(rt, path)?;
    fill_at(rt, path, digest)
}

/// Makes an empty file for a journal at a path, where there is none. Its owner alone may read and write it.
///
/// # Errors
/// The system refuses it; out of memory.
pub fn make_at(rt: &HostRuntime, path: &str) -> Result<(), LibraryJournalFault> {
    match own_file(rt, path) {
        Ok(_) => Ok(()),
        Err(error) => Err(LibraryJournalFault::from(cannot_write(rt.alloc(), path, &error)?)),
    }
}

/// Begins the journal of a library with this digest in an empty file, and waits until the disk has it.
///
/// # Errors
/// The system refuses it; out of memory.
pub fn fill_at(rt: &HostRuntime, path: &str, digest: &[u8; 32]) -> Result<(), LibraryJournalFault> {
    let (conn, _) = open(connect(rt, path, Unknown), digest)?;
    end_kept(conn)
}
