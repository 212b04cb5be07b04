//! Files, read whole.

use crate::fault::SetupFault;
use std::alloc::{AllocError, Global};
use std::io::ErrorKind;
use std::{fs, io};

/// The bytes of a file of a library. Its kind is a word for it, as `catalogue`.
///
/// # Errors
/// `CannotRead`, with the path and the system's reason.
pub fn read_file(rt: &HostRuntime, kind: &'static str, path: &str) -> Result<Vec<u8>, SetupFault> {
    match fs::read(rt, path) {
        Ok(file) => Ok(file),
        Err(error) => Err(SetupFault::CannotRead {
            kind,
            path: String::from_str(rt.alloc(), path)?,
            why: format!(in rt.alloc(); "{error}")?,
        }),
    }
}

/// The bytes of another file: a sheet, or a list.
///
/// # Errors
/// `CannotReadFile`, with the path and the system's reason.
pub fn read_list(rt: &HostRuntime, path: &str) -> Result<Vec<u8>, SetupFault> {
    match fs::read(rt, path) {
        Ok(file) => Ok(file),
        Err(error) => Err(cannot_read(rt.alloc(), path, &error)?),
    }
}

/// The bytes of another file, where there is one.
///
/// # Errors
/// `CannotReadFile`, with the path and the system's reason.
pub(crate) fn read_if_there(rt: &HostRuntime, path: &str) -> Result<Option<Vec<u8>>, SetupFault> {
    match fs::read(rt, path) {
        Ok(file) => Ok(Some(file)),
        Err(error) if error.kind() == ErrorKind::NotFound => Ok(None),
        Err(error) => Err(cannot_read(rt.alloc(), path, &error)?),
    }
}

/// The fault that another file, or a folder, can't be read: its path, and the system's reason.
///
/// # Errors
/// Out of memory.
pub fn cannot_read(alloc: Global, path: &str, why: &io::Error) -> Result<SetupFault, AllocError> {
    Ok(SetupFault::CannotReadFile(format!(in alloc; "{path}: {why}")?))
}
