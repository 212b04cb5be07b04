//! The paths of a library's files, which are named one by one or are those of a period of a folder.

use crate::fault::FolderFault;
use crate::folder::{last_period, no_library};
use crate::presence::length;
use hd_command_line::{LibraryFiles, Place};
use hd_periods::{FileKind, FileName};
use std::alloc::{AllocError, Global};
use std::io;

/// A period of a folder.
pub struct Period {
    folder: String,
    number: u32,
    /// How long its file of names that joined was when its paths were found, 0 where there was none. Lines
    /// are only added after those of that file.
    joined: u64,
}

// Written out, so that a caller's proof sees one call and not the drop of each field.
impl Drop for Period {
    fn drop(self) {
        let Period {
            folder: _folder,
            number: _number,
            joined: _joined,
        } = self;
    }
}

impl Period {
    /// Its folder.
    pub fn folder(&self) -> &str {
        self.folder.as_str()
    }

    /// Its number, from 1.
    pub fn number(&self) -> u32 {
        self.number
    }

    /// Checks that this is still the last complete period of its folder, and that no names joined it
    /// meanwhile. While its journal is open that stays so, since a carry to the next one opens it, and so
    /// does a join.
    ///
    /// # Errors
    /// It isn't; names joined it; a later period lacks a file; the folder can't be read; out of memory.
    pub fn see_last(&self, rt: &HostRuntime) -> Result<(), FolderFault> {
        let number = self.number;
        match last_period(rt, self.folder.as_str())? {
            None => Err(no_library(rt, self.folder.as_str())?),
            Some(last) if last == number => self.see_no_join(rt),
            Some(last) => {
                let way = format!(in rt.alloc(); "from {number:04} to {last:04}")?;
                Err(FolderFault::GoneOn(way))
            }
        }
    }

    /// Checks that no names joined it since its paths were found.
    ///
    /// # Errors
    /// Some did; the system doesn't report the length; out of memory.
    fn see_no_join(&self, rt: &HostRuntime) -> Result<(), FolderFault> {
        if joined_length(rt, self.folder.as_str(), self.number)? == self.joined {
            Ok(())
        } else {
            Err(FolderFault::GoneOn(String::from_str(rt.alloc(), "on by a join")?))
        }
    }
}

/// The paths of a library's files.
pub struct Paths {
    /// The period that they are of, where they are of one.
    period: Option<Period>,
    catalogue: String,
    opening: Option<String>,
    journal: Option<String>,
    joined: Option<String>,
}

// Written out, so that a caller's proof sees one call and not the drop of each field.
impl Drop for Paths {
    fn drop(self) {
        let Paths {
            period: _period,
            catalogue: _catalogue,
            opening: _opening,
            journal: _journal,
            joined: _joined,
        } = self;
    }
}

impl Paths {
    /// Where a library's files are.
    ///
    /// # Errors
    /// There is no library in its folder, or that can't be read; out of memory.
    pub fn of(rt: &HostRuntime, library: &Place<'_>) -> Result<Paths, FolderFault> {
        match library {
            Place::Files(files) => Ok(Paths::of_files(rt.alloc(), files)?),
            Place::Folder(folder) => Paths::of_last_period(rt, folder),
        }
    }

    /// The paths of files that are named one by one.
    fn of_files(alloc: Global, files: &LibraryFiles<'_>) -> Result<Paths, AllocError> {
        Ok(Paths {
            period: None,
            catalogue: String::from_str(alloc, files.catalogue)?,
            opening: text_of(alloc, files.opening)?,
            journal: text_of(alloc, files.journal)?,
            joined: None,
        })
    }

    /// The paths of the last complete period of a folder.
    fn of_last_period(rt: &HostRuntime, folder: &str) -> Result<Paths, FolderFault> {
        match last_period(rt, folder)? {
            None => Err(no_library(rt, folder)?),
            Some(period) => {
                let joined = joined_length(rt, folder, period)?;
                Ok(Paths::of_joined(rt.alloc(), folder, period, joined)?)
            }
        }
    }

    /// The paths of a period of a folder that no names joined.
    ///
    /// # Errors
    /// Out of memory.
    pub fn of_period(alloc: Global, folder: &str, period: u32) -> Result<Paths, AllocError> {
        Paths::of_joined(alloc, folder, period, 0)
    }

    /// The paths of a period of a folder, whose file of names that joined has this length.
    fn of_joined(
        alloc: Global,
        folder: &str,
        period: u32,
        joined: u64,
    ) -> Result<Paths, AllocError> {
        let opening = if period == 1 {
            None
        } else {
            Some(path_of(alloc, folder, period, FileKind::Opening)?)
        };
        Ok(Paths {
            period: Some(Period {
                folder: String::from_str(alloc, folder)?,
                number: period,
                joined,
            }),
            catalogue: path_of(alloc, folder, period, FileKind::Catalogue)?,
            opening,
            journal: Some(path_of(alloc, folder, period, FileKind::Journal)?),
            joined: Some(path_of(alloc, folder, period, FileKind::Joined)?),
        })
    }

    /// Reports on standard error what is done with the period that they are of, where they are of a folder.
    ///
    /// # Errors
    /// Standard error can't be written.
    pub fn tell<R: Eprint>(&self, rt: &R, done: &str) -> io::Result<()> {
        if let Some(Period { folder, number, .. }) = &self.period {
            eprintln!(rt; "{done} {number:04} of {folder}")?;
        }
        Ok(())
    }

    /// The period that they are of, where they are of one.
    pub fn numbered(&self) -> Option<&Period> {
        self.period.as_ref()
    }

    /// The files at these paths.
    pub fn files(&self) -> LibraryFiles<'_> {
        LibraryFiles {
            catalogue: self.catalogue.as_str(),
            opening: str_of(&self.opening),
            journal: str_of(&self.journal),
            joined: str_of(&self.joined),
        }
    }
}

/// The path of a file in a folder.
///
/// # Errors
/// Out of memory.
pub fn file_path(alloc: Global, folder: &str, name: &FileName) -> Result<String, AllocError> {
    format!(in alloc; "{folder}/{name}")
}

/// The path of a file of a period, by what it is.
fn path_of(alloc: Global, folder: &str, period: u32, kind: FileKind) -> Result<String, AllocError> {
    file_path(alloc, folder, &FileName::whole(period, kind))
}

/// How long the file of the names is that joined a period of a folder; 0 where there is none.
///
/// # Errors
/// The system doesn't report it; out of memory.
fn joined_length(rt: &HostRuntime, folder: &str, period: u32) -> Result<u64, FolderFault> {
    let path = path_of(rt.alloc(), folder, period, FileKind::Joined)?;
    Ok(length(rt, path.as_str())?.unwrap_or(0))
}

/// A text of its own, where there is one.
fn text_of(alloc: Global, text: Option<&str>) -> Result<Option<String>, AllocError> {
    match text {
        Some(text) => Ok(Some(String::from_str(alloc, text)?)),
        None => Ok(None),
    }
}

/// The text, where there is one.
fn str_of(text: &Option<String>) -> Option<&str> {
    match text {
        Some(text) => Some(text.as_str()),
        None => None,
    }
}
