//! What is at the path of a journal's file, before it is opened.

use crate::fault::{FolderFault, cannot_read, cannot_write};
use hd_turn_store::{HEADER_LENGTH, is_ended};
use std::alloc::{AllocError, Global};
use std::fs::{self, File};
use std::io::{self, ErrorKind, Read};

/// How many bytes the heading of a log has. A longer log whose journal is missing is a fault.
const LOG_HEADING: u64 = 32;

/// How many bytes a log with a commit has at least: its heading, that of a page, and the smallest page.
const LEAST_LOG: u64 = 32 + 24 + 512;

/// What is at the path of a journal's file.
#[derive(Clone, Copy, PartialEq, Eq)]
enum Presence {
    /// Nothing, or what a beginning that was broken off left: two files in which nothing was committed.
    Nothing,
    /// A journal with its log.
    Journal,
    /// A journal without its log, which may have had the last turns.
    JournalAlone,
    /// A log without its journal, or with one that was emptied.
    LogAlone,
}

/// Checks that there is a journal at a path, with its log, or one that was ended well.
///
/// # Errors
/// There is none, one of its two files is missing, or the system refuses it.
pub fn see_journal(rt: &HostRuntime, path: &str) -> Result<(), FolderFault> {
    let log = log_path(rt.alloc(), path)?;
    match look(rt, path, log.as_str())? {
        Presence::Journal => see_readable(rt, path),
        Presence::Nothing => Err(FolderFault::NoJournal(String::from_str(rt.alloc(), path)?)),
        Presence::JournalAlone => see_ended(rt, path),
        Presence::LogAlone => Err(FolderFault::LogAlone(log)),
    }
}

/// Checks that a journal's file can be read.
///
/// # Errors
/// The system refuses it.
fn see_readable(rt: &HostRuntime, path: &str) -> Result<(), FolderFault> {
    match File::open(rt, path) {
        Ok(_) => Ok(()),
        Err(error) => Err(cannot_read(rt.alloc(), path, &error)?),
    }
}

/// Checks that a file says that it was ended well, so that it has all of the journal without a log.
///
/// # Errors
/// It doesn't say so, or the system refuses it.
fn see_ended(rt: &HostRuntime, path: &str) -> Result<(), FolderFault> {
    match read_header(rt, path) {
        Ok(header) if is_ended(&header) => Ok(()),
        Ok(_) => Err(FolderFault::NoLog),
        Err(error) if error.kind() == ErrorKind::UnexpectedEof => Err(FolderFault::NoLog),
        Err(error) => Err(cannot_read(rt.alloc(), path, &error)?),
    }
}

/// The first bytes of a file.
///
/// # Errors
/// It can't be read, or has fewer.
fn read_header(rt: &HostRuntime, path: &str) -> io::Result<[u8; HEADER_LENGTH]> {
    let mut header = [0; HEADER_LENGTH];
    File::open(rt, path)?.read_exact(&mut header)?;
    Ok(header)
}

/// Checks that there is nothing at a path, so that a journal may be begun there.
///
/// # Errors
/// A journal is there, or one of its two files; a link, a device or the like is.
pub fn see_nothing(rt: &HostRuntime, path: &str) -> Result<(), FolderFault> {
    if is_irregular(rt, path)? {
        return Err(FolderFault::FileIsThere(String::from_str(rt.alloc(), path)?));
    }
    let log = log_path(rt.alloc(), path)?;
    match look(rt, path, log.as_str())? {
        Presence::Nothing => Ok(()),
        Presence::Journal | Presence::JournalAlone => {
            Err(FolderFault::JournalIsThere(String::from_str(rt.alloc(), path)?))
        }
        Presence::LogAlone => Err(FolderFault::LogAlone(log)),
    }
}

/// Checks that there is no file at a path.
///
/// # Errors
/// There is one.
pub fn see_no_file(rt: &HostRuntime, path: &str) -> Result<(), FolderFault> {
    match length(rt, path)? {
        None => Ok(()),
        Some(_) => Err(FolderFault::FileIsThere(String::from_str(rt.alloc(), path)?)),
    }
}

/// Checks that there is no file with other bytes at a path.
///
/// # Errors
/// There is one, or it can't be read.
pub fn see_no_other(rt: &HostRuntime, path: &str, bytes: &[u8]) -> Result<(), FolderFault> {
    match fs::read(rt, path) {
        Ok(there) if there.as_slice() == bytes => Ok(()),
        Ok(_) => Err(FolderFault::FileIsThere(String::from_str(rt.alloc(), path)?)),
        Err(error) if error.kind() == ErrorKind::NotFound => Ok(()),
        Err(error) => Err(cannot_read(rt.alloc(), path, &error)?),
    }
}

/// Removes a journal's file and its log, where they are there.
///
/// # Errors
/// The system refuses it.
pub(crate) fn remove_journal(rt: &HostRuntime, path: &str) -> Result<(), FolderFault> {
    let log = log_path(rt.alloc(), path)?;
    remove(rt, path)?;
    remove(rt, log.as_str())
}

/// Removes a file, where it is there.
pub(crate) fn remove(rt: &HostRuntime, path: &str) -> Result<(), FolderFault> {
    match fs::remove_file(rt, path) {
        Ok(()) => Ok(()),
        Err(error) if error.kind() == ErrorKind::NotFound => Ok(()),
        Err(error) => Err(cannot_write(rt.alloc(), path, &error)?),
    }
}

/// The path of a journal's log.
///
/// # Errors
/// Out of memory.
pub fn log_path(alloc: Global, path: &str) -> Result<String, AllocError> {
    format!(in alloc; "{path}-wal")
}

/// What is at the path of a journal's file, and at that of its log.
fn look(rt: &HostRuntime, path: &str, log: &str) -> Result<Presence, FolderFault> {
    Ok(presence_of(length(rt, path)?, length(rt, log)?))
}

/// What two files are that have these lengths, where they are there.
fn presence_of(journal: Option<u64>, log: Option<u64>) -> Presence {
    let length = log.unwrap_or(0);
    match (journal, log) {
        (None, _) if length > LOG_HEADING => Presence::LogAlone,
        (None, _) => Presence::Nothing,
        (Some(0), _) if length < LEAST_LOG => Presence::Nothing,
        (Some(0), _) => Presence::LogAlone,
        (Some(_), None) => Presence::JournalAlone,
        (Some(_), Some(_)) => Presence::Journal,
    }
}

/// Whether there is something at a path that is no regular file: a folder, a link, a device or the like.
///
/// # Errors
/// The system doesn't report it.
fn is_irregular(rt: &HostRuntime, path: &str) -> Result<bool, FolderFault> {
    match fs::symlink_metadata(rt, path) {
        Ok(there) => Ok(!there.is_file()),
        Err(error) if error.kind() == ErrorKind::NotFound => Ok(false),
        Err(error) => Err(cannot_read(rt.alloc(), path, &error)?),
    }
}

/// How long a file is, where there is one.
///
/// # Errors
/// The system doesn't report it.
pub(crate) fn length(rt: &HostRuntime, path: &str) -> Result<Option<u64>, FolderFault> {
    match fs::metadata(rt, path) {
        Ok(file) => Ok(Some(file.len())),
        Err(error) if error.kind() == ErrorKind::NotFound => Ok(None),
        Err(error) => Err(cannot_read(rt.alloc(), path, &error)?),
    }
}
