//! Files that are written whole, or not at all.

use crate::fault::{FolderFault, cannot_write};
use std::alloc::{AllocError, Global};
use std::fs::{File, Metadata, OpenOptions, Permissions};
use std::io::{ErrorKind, Write};
use std::os::unix::fs::{MetadataExt, OpenOptionsExt, PermissionsExt};
use std::{fs, io};

/// The mode of a file that is made: its owner alone may read and write it.
const OWNERS: u32 = 0o600;

/// Why a link, a device or the like isn't written to.
const IRREGULAR: &str = "it is no regular file";

/// How many bytes are written to see whether the disk takes them: a page of a journal's file.
const PAGE: usize = 4_096;

/// Writes a part file, waits until the disk has it, and renames it to its path. At each moment there is the
/// whole file at the path, or what was there before.
///
/// # Errors
/// The system refuses it.
pub fn write_whole(rt: &HostRuntime, path: &str, bytes: &[u8]) -> Result<(), FolderFault> {
    let part = part_path(rt.alloc(), path)?;
    write_part(rt, part.as_str(), bytes)?;
    name_part(rt, part.as_str(), path)
}

/// The path of the part file of a file.
///
/// # Errors
/// Out of memory.
pub fn part_path(alloc: Global, path: &str) -> Result<String, AllocError> {
    format!(in alloc; "{path}.part")
}

/// Writes a file, and waits until the disk has its bytes.
///
/// # Errors
/// The system refuses it.
pub fn write_part(rt: &HostRuntime, part: &str, bytes: &[u8]) -> Result<(), FolderFault> {
    let file = write_file(rt, part, bytes)?;
    sync_file(rt, &file, part)
}

/// Writes a file. A stop of the machine may lose any of its bytes until it is synced.
///
/// # Errors
/// The system refuses it.
pub(crate) fn write_file(rt: &HostRuntime, path: &str, bytes: &[u8]) -> Result<File, FolderFault> {
    match written(rt, path, bytes) {
        Ok(file) => Ok(file),
        Err(error) => Err(cannot_write(rt.alloc(), path, &error)?),
    }
}

/// Waits until the disk has the bytes of a file, whose path this is.
///
/// # Errors
/// The system refuses it.
pub(crate) fn sync_file(rt: &HostRuntime, file: &File, path: &str) -> Result<(), FolderFault> {
    match file.sync_all() {
        Ok(()) => Ok(()),
        Err(error) => Err(cannot_write(rt.alloc(), path, &error)?),
    }
}

/// Waits until the disk has the bytes of the file at a path.
///
/// # Errors
/// The system refuses it.
pub(crate) fn sync_path(rt: &HostRuntime, path: &str) -> Result<(), FolderFault> {
    match File::open(rt, path) {
        Ok(file) => sync_file(rt, &file, path),
        Err(error) => Err(cannot_write(rt.alloc(), path, &error)?),
    }
}

/// Renames a part file to its path, and waits until the disk has the name.
///
/// # Errors
/// The system refuses it. Where it only refuses to sync the folder, the file has its name.
pub fn name_part(rt: &HostRuntime, part: &str, path: &str) -> Result<(), FolderFault> {
    rename_part(rt, part, path)?;
    sync_folder(rt, folder_of(path), Some(path))
}

/// Renames a part file to its path.
///
/// # Errors
/// The system refuses it.
pub(crate) fn rename_part(rt: &HostRuntime, part: &str, path: &str) -> Result<(), FolderFault> {
    match fs::rename(rt, part, path) {
        Ok(()) => Ok(()),
        Err(error) => Err(cannot_write(rt.alloc(), path, &error)?),
    }
}

/// Waits until the disk has the names of a folder. `renamed` is the path of a file that was renamed since the
/// last sync, if one was.
///
/// # Errors
/// The system refuses it.
pub(crate) fn sync_folder(
    rt: &HostRuntime,
    folder: &str,
    renamed: Option<&str>,
) -> Result<(), FolderFault> {
    match (synced(rt, folder), renamed) {
        (Ok(()), _) => Ok(()),
        (Err(error), None) => Err(cannot_write(rt.alloc(), folder, &error)?),
        (Err(error), Some(path)) => Err(FolderFault::NotCertain {
            path: String::from_str(rt.alloc(), path)?,
            why: format!(in rt.alloc(); "{error}")?,
        }),
    }
}

/// Opens a file that its owner alone may read and write, whatever the umask. Where there is none, it is made,
/// and is empty.
///
/// # Errors
/// The system refuses it; a link, a device or the like is there, which stays as it is.
pub fn own_file(rt: &HostRuntime, path: &str) -> io::Result<File> {
    let file = match fs::symlink_metadata(rt, path) {
        Ok(there) => open_regular(rt, path, &there)?,
        Err(error) if error.kind() == ErrorKind::NotFound => OpenOptions::new()
            .write(true)
            .create_new(true)
            .mode(OWNERS)
            .open(rt, path)?,
        Err(error) => return Err(error),
    };
    file.set_permissions(Permissions::from_mode(OWNERS))?;
    Ok(file)
}

/// Opens the regular file that was seen at a path, and no other.
///
/// # Errors
/// The system refuses it, as a folder; it is no regular file, or another one is there by now.
fn open_regular(rt: &HostRuntime, path: &str, seen: &Metadata) -> io::Result<File> {
    if !seen.is_file() && !seen.is_dir() {
        return Err(io::Error::other(IRREGULAR));
    }
    let file = OpenOptions::new().write(true).open(rt, path)?;
    let opened = file.metadata()?;
    if opened.dev() == seen.dev() && opened.ino() == seen.ino() {
        Ok(file)
    } else {
        Err(io::Error::other(IRREGULAR))
    }
}

/// Writes a page to a trial file in the same folder, waits until the disk has it, and removes it again.
///
/// # Errors
/// The system refuses it.
pub fn try_page(rt: &HostRuntime, path: &str) -> Result<(), FolderFault> {
    let trial = format!(in rt.alloc(); "{path}.trial")?;
    let written = write_synced(rt, trial.as_str(), &[0; PAGE]);
    let removed = fs::remove_file(rt, trial.as_str());
    match (written, removed) {
        (Ok(()), Ok(())) => Ok(()),
        (Err(error), _) if is_full(&error) => { Err(FolderFault::DiskFull) }
        (Err(error), _) | (Ok(()), Err(error)) => Err(cannot_write(
            rt.alloc(),
            trial.as_str(),
            &error,
        )?),
    }
}

/// Whether a disk, or what a user may have of it, is full.
fn is_full(error: &io::Error) -> bool {
    matches!(
        error.kind(),
        ErrorKind::StorageFull | ErrorKind::QuotaExceeded
    )
}

/// Writes a file, and waits until the disk has it.
fn write_synced(rt: &HostRuntime, path: &str, bytes: &[u8]) -> io::Result<()> {
    written(rt, path, bytes)?.sync_all()
}

/// Writes a file: a new one, or over the one that is there.
fn written(rt: &HostRuntime, path: &str, bytes: &[u8]) -> io::Result<File> {
    let mut file = own_file(rt, path)?;
    file.set_len(0)?;
    file.write_all(bytes)?;
    Ok(file)
}

/// Waits until the disk has the names of a folder.
fn synced(rt: &HostRuntime, folder: &str) -> io::Result<()> {
    File::open(rt, folder)?.sync_all()
}

/// The folder of a file, by its path.
fn folder_of(path: &str) -> &str {
    match path.rsplit_once('/') {
        Some(("", _)) => "/",
        Some((folder, _)) => folder,
        None => ".",
    }
}
