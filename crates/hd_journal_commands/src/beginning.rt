//! What `journal begin` does.

use crate::fault::JournalCommandFault;
use crate::stepping::{Contents, take_steps};
use hd_command_line::{JournalBegin, LibraryFiles};
use hd_folder::{
    Paths, cannot_write, last_period, own_file, part_path, see_no_file, see_no_other, see_nothing,
    write_whole,
};
use hd_library::{Library, read_file};
use hd_library_journal::{LibraryJournalFault, begin_at};
use hd_periods::carry_steps;
use hd_turn_store::Fault as StoreFault;
use std::fs::{self, File, TryLockError};

/// The number of the period that begins with an opening, as if a period before had ended so.
const OPENED: u32 = 2;

/// Begins a journal's file where there is none, or the first period of a folder that has none. An opening
/// makes it number 2, as if a period before had ended so.
///
/// # Errors
/// A library or a journal is there; a file can't be read or written, or is refused; out of memory.
pub fn begin_journal(
    rt: &HostRuntime,
    order: &JournalBegin<'_>,
) -> Result<(), JournalCommandFault> {
    match order.folder {
        Some(folder) => begin_folder(rt, &order.library, folder),
        None => begin_file(rt, &order.library),
    }
}

/// Begins the first period of a folder that has none, or whose first one was broken off before anything was
/// committed to its journal.
fn begin_folder(
    rt: &HostRuntime,
    library: &LibraryFiles<'_>,
    folder: &str,
) -> Result<(), JournalCommandFault> {
    let alloc = rt.alloc();
    let first = Paths::of_period(alloc, folder, 1)?;
    let files = first.files();
    let nothing = see_nothing(rt, files.journal.unwrap_or(""));
    match last_period(rt, folder)? {
        None => nothing?,
        Some(1) if nothing.is_ok() => {}
        Some(_) => return Err(JournalCommandFault::LibraryIsThere(String::from_str(
            alloc, folder,
        )?)),
    }
    match library.opening {
        None => begin_first(rt, library, &files),
        Some(opening) => {
            let second = Paths::of_period(alloc, folder, OPENED)?;
            begin_opened(rt, library, opening, folder, &second.files())
        }
    }
}

/// Begins the first period of a folder, whose files these are: a copy of the catalogue, and a journal. A
/// beginning that was broken off has left the same copy; another catalogue is of a journal that was lost.
fn begin_first(
    rt: &HostRuntime,
    library: &LibraryFiles<'_>,
    files: &LibraryFiles<'_>,
) -> Result<(), JournalCommandFault> {
    let catalogue = read_file(rt, "catalogue", library.catalogue)?;
    drop(Library::of_catalogue(rt, catalogue.as_slice())?.with_text()?);
    see_no_other(rt, files.catalogue, catalogue.as_slice())?;
    see_no_file(rt, files.joined.unwrap_or(""))?;
    write_whole(rt, files.catalogue, catalogue.as_slice())?;
    begin_file(rt, files)
}

/// Begins the second period of a folder, whose files these are: copies of the catalogue and of the opening,
/// and a journal, by the steps of a carry. The opening gets its name last, which makes the period complete.
/// Until then nobody else begins it, and no server has its journal open.
fn begin_opened(
    rt: &HostRuntime,
    library: &LibraryFiles<'_>,
    opening: &str,
    folder: &str,
    files: &LibraryFiles<'_>,
) -> Result<(), JournalCommandFault> {
    let (path, into) = (files.journal.unwrap_or(""), files.opening.unwrap_or(""));
    see_no_file(rt, into)?;
    see_no_file(rt, files.joined.unwrap_or(""))?;
    let catalogue = read_file(rt, "catalogue", library.catalogue)?;
    let opening = read_file(rt, "opening", opening)?;
    let digest = digest_of_opened(rt, catalogue.as_slice(), opening.as_slice())?;
    see_no_other(rt, files.catalogue, catalogue.as_slice())?;
    let part = part_path(rt.alloc(), into)?;
    let lock = lock_part(rt, part.as_str(), into)?;
    let contents = Contents {
        catalogue: catalogue.as_slice(),
        opening: opening.as_slice(),
        joined: &[],
        digest,
    };
    take_steps(rt, folder, &carry_steps(OPENED), &contents)?;
    drop(lock);
    println!(rt; "begun: {path}")?;
    Ok(())
}

/// Locks an opening that isn't whole yet, as long as what this returns is kept. Another beginning may have
/// ended until the lock is taken: then the opening has its name.
///
/// # Errors
/// Another program has the lock; the opening has its name; the system refuses it; out of memory.
fn lock_part(rt: &HostRuntime, part: &str, into: &str) -> Result<File, JournalCommandFault> {
    let lock = match locked(rt, part) {
        Ok(lock) => lock,
        Err(TryLockError::WouldBlock) => {
            return Err(JournalCommandFault::from(LibraryJournalFault::from(StoreFault::Busy)));
        }
        Err(TryLockError::Error(error)) => {
            return Err(JournalCommandFault::from(cannot_write(rt.alloc(), part, &error)?));
        }
    };
    if let Err(fault) = see_no_file(rt, into) {
        let _removed = fs::remove_file(rt, part);
        return Err(JournalCommandFault::from(fault));
    }
    Ok(lock)
}

/// Opens a file that its owner alone may read and write, and locks it.
///
/// # Errors
/// Another program has it locked; the system refuses it.
fn locked(rt: &HostRuntime, path: &str) -> Result<File, TryLockError> {
    let file = match own_file(rt, path) {
        Ok(file) => file,
        Err(error) => return Err(TryLockError::Error(error)),
    };
    file.try_lock()?;
    Ok(file)
}

/// The digest of the library of a catalogue file and an opening file with these bytes.
///
/// # Errors
/// One of them is refused.
fn digest_of_opened(
    rt: &HostRuntime,
    catalogue: &[u8],
    opening: &[u8],
) -> Result<[u8; 32], JournalCommandFault> {
    let library = Library::of_catalogue(rt, catalogue)?.with_text()?;
    let library = library.opened_by(rt, opening)?;
    let digest = library.digest;
    drop(library.journal(rt)?);
    Ok(digest)
}

/// Begins a library's journal where there is none. All of it is then in the database file.
fn begin_file(rt: &HostRuntime, files: &LibraryFiles<'_>) -> Result<(), JournalCommandFault> {
    let path = files.journal.unwrap_or("");
    let digest = digest_of_fit(rt, files, path)?;
    begin_at(rt, path, &digest)?;
    println!(rt; "begun: {path}")?;
    Ok(())
}

/// The digest of a library, which a journal may begin with at a path.
///
/// # Errors
/// A file can't be read, or is refused; there is something at the path.
fn digest_of_fit(
    rt: &HostRuntime,
    files: &LibraryFiles<'_>,
    path: &str,
) -> Result<[u8; 32], JournalCommandFault> {
    let library = Library::read_text(rt, files)?;
    see_nothing(rt, path)?;
    let digest = library.digest;
    drop(library.journal(rt)?);
    Ok(digest)
}
