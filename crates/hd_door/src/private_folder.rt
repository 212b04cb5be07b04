//! Folders that nobody but their owner may enter.
ghost use Rattle.hd_door.specs.SocketFiles.{IsForOwnerAlone};

use std::alloc::Global;
use std::fs::Files;
use std::io::{self, ErrorKind};

/// The names that are tried for a new folder, each one letter or digit, behind a dot.
const NAMES: &str = "0123456789abcdefghijklmnopqrstuvwxyz";

/// The folder of a path.
pub(crate) fn folder_of(path: &str) -> &str {
    match path.rsplit_once('/') {
        Some((folder, _)) => folder,
        None => ".",
    }
}

/// Makes a new folder in a folder, which its owner alone may enter, and gives its path: three bytes more.
///
/// # Errors
/// Where the system refuses; `AlreadyExists` where all names are taken.
pub(crate) fn new_folder<R: Files>(rt: &R, alloc: Global, within: &str) -> io::Result<String> {
    for name in NAMES.chars() {
        let folder = format!(in alloc; "{within}/.{name}")?;
        match rt.create_dir_with_mode(folder.as_str(), mode()) {
            Ok(()) => return Ok(folder),
            Err(error) if error.kind() == ErrorKind::AlreadyExists => {}
            Err(error) => return Err(error),
        }
    }
    Err(io::Error::from(ErrorKind::AlreadyExists))
}

/// The mode of such a folder.
fn mode() -> u32
    ensures { IsForOwnerAlone result }
{
    0o700
}
