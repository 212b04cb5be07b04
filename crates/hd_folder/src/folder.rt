//! The library of a folder: which files its periods have, and which period is the last complete one.

use crate::fault::{FolderFault, cannot_read};
use crate::paths::{Paths, file_path};
use hd_periods::{FileName, PeriodFile, library_of, missing};
use std::fs::{self, DirEntry, ReadDir};
use std::io::{self, ErrorKind};

/// What a folder has of a library.
#[derive(Drop)]
struct FolderNames {
    /// The names of its periods' files.
    names: Vec<FileName>,
    /// Numbers of periods that other names have: with more or fewer zeros, or of links that lead to nothing.
    others: Vec<u32>,
}

/// The last complete period of a folder, if it has one.
///
/// # Errors
/// There is no folder, or it can't be read; a later period lacks a file; out of memory.
pub fn last_period(rt: &HostRuntime, folder: &str) -> Result<Option<u32>, FolderFault> {
    if let Ok(last) = library_in(&names_in(rt, folder)?) {
        return Ok(last);
    }
    // A carry may have renamed a file while the folder was listed, so that neither of its names was seen.
    match library_in(&names_in(rt, folder)?) {
        Ok(last) => Ok(last),
        Err(PeriodFile { number, kind }) => {
            let name = FileName::whole(number, kind);
            Err(FolderFault::Lacks(file_path(rt.alloc(), folder, &name)?))
        }
    }
}

/// The period of the library of a folder, if it has one.
///
/// # Errors
/// The file that a later period lacks.
fn library_in(listed: &FolderNames) -> Result<Option<u32>, PeriodFile> {
    let names = listed.names.as_slice();
    let last = library_of(names)?;
    for number in &listed.others {
        if last.is_none_or(|last| *number > last)
            && let Some(kind) = missing(names, *number)
        {
            return Err(PeriodFile {
                number: *number,
                kind,
            });
        }
    }
    Ok(last)
}

/// Lists a folder.
///
/// # Errors
/// There is no folder, or it can't be read; out of memory.
fn names_in(rt: &HostRuntime, folder: &str) -> Result<FolderNames, FolderFault> {
    let mut listed = FolderNames {
        names: Vec::new(rt.alloc()),
        others: Vec::new(rt.alloc()),
    };
    for entry in entries_in(rt, folder)? {
        if let Some(entry) = read_entry(rt, folder, entry)? {
            push_name(rt, folder, entry.file_name(), &mut listed)?;
        }
    }
    Ok(listed)
}

/// The fault of a folder that has no complete period. Where the first one has its catalogue, the journal was
/// lost, or the beginning was broken off, and the fault names the journal.
///
/// # Errors
/// The system doesn't report what is there; out of memory.
pub(crate) fn no_library(rt: &HostRuntime, folder: &str) -> Result<FolderFault, FolderFault> {
    let first = Paths::of_period(rt.alloc(), folder, 1)?;
    let files = first.files();
    let has_catalogue = is_there(rt, files.catalogue)?;
    match files.journal {
        Some(journal) if has_catalogue => {
            Ok(FolderFault::Lacks(String::from_str(rt.alloc(), journal)?))
        }
        _ => Ok(FolderFault::NoLibrary(String::from_str(rt.alloc(), folder)?)),
    }
}

/// The entries of a folder.
///
/// # Errors
/// There is no folder, or it can't be read; out of memory.
fn entries_in(rt: &HostRuntime, folder: &str) -> Result<ReadDir, FolderFault> {
    match fs::read_dir(rt, folder) {
        Ok(entries) => Ok(entries),
        Err(error) if error.kind() == ErrorKind::NotFound => {
            Err(FolderFault::NoFolder(String::from_str(rt.alloc(), folder)?))
        }
        Err(error) => Err(cannot_read(rt.alloc(), folder, &error)?),
    }
}

/// An entry of a folder that was read; none where its name isn't UTF-8, as that of a period's file is.
///
/// # Errors
/// The folder can't be read; out of memory.
fn read_entry(
    rt: &HostRuntime,
    folder: &str,
    entry: io::Result<DirEntry>,
) -> Result<Option<DirEntry>, FolderFault> {
    match entry {
        Ok(entry) => Ok(Some(entry)),
        Err(error) if error.kind() == ErrorKind::InvalidFilename => Ok(None),
        Err(error) => Err(cannot_read(rt.alloc(), folder, &error)?),
    }
}

/// Adds a name to what a folder has, if it is that of a file of a period.
///
/// # Errors
/// The system doesn't report whether the file is there; out of memory.
fn push_name(
    rt: &HostRuntime,
    folder: &str,
    text: &str,
    listed: &mut FolderNames,
) -> Result<(), FolderFault> {
    let path = format!(in rt.alloc(); "{folder}/{text}")?;
    match FileName::named(text) {
        Some(name) if is_there(rt, path.as_str())? => listed.names.push(name)?,
        _ => {
            if let Some(number) = period_of(text) {
                listed.others.push(number)?;
            }
        }
    }
    Ok(())
}

/// The period of a catalogue, an opening or a journal, by the name of its file, however many zeros are before
/// its number. Periods are numbered from 1.
fn period_of(name: &str) -> Option<u32> {
    let (digits, kind) = name.split_once('.')?;
    let is_kind = matches!(kind, "catalogue" | "opening" | "journal");
    if !is_kind || !digits.bytes().all(|byte| byte.is_ascii_digit()) {
        return None;
    }
    match digits.parse::<u32>() {
        Ok(period) if period > 0 => Some(period),
        _ => None,
    }
}

/// Whether there is a file at a path.
///
/// # Errors
/// The system doesn't report it; out of memory.
fn is_there(rt: &HostRuntime, path: &str) -> Result<bool, FolderFault> {
    match fs::exists(rt, path) {
        Ok(is) => Ok(is),
        Err(error) => Err(cannot_read(rt.alloc(), path, &error)?),
    }
}
