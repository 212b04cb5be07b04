//! The file of the names that joined a library: a first line with the SHA-256 of what follows, and the lines of
//! these names, as catalogue files have them.
ghost use Rattle.std.specs.Prelude.{◌≡◌, ◌++◌, IfOk};
ghost use Rattle.hd_library.specs.Joined.{joined_text};

use crate::fault::SetupFault;
use crate::reading::read_if_there;
use hd_catalogue::first_line;
use sha2::{Digest, Sha256};
use std::alloc::{AllocError, Global};

/// The bytes of the file of these lines.
///
/// # Errors
/// Out of memory.
pub fn joined_file(alloc: Global, lines: &[u8]) -> Result<Vec<u8>, AllocError>
    ensures { IfOk result (λ file. file.items ≡ joined_text lines.now) }
{
    let mut file = Vec::new(alloc);
    let digest = hex::encode(alloc, Sha256::digest(lines))?;
    file.extend_from_slice(b"H|joined|1|")?;
    file.extend_from_slice(digest.as_bytes())?;
    file.push(b'\n')?;
    file.extend_from_slice(lines)?;
    Ok(file)
}

/// The lines of the names that joined a library, where there is a file of them at this path.
///
/// # Errors
/// It can't be read; its bytes are none that were written.
pub fn joined_lines(rt: &HostRuntime, path: &str) -> Result<Option<Vec<u8>>, SetupFault> {
    let Some(file) = read_if_there(rt, path)? else {
        return Ok(None);
    };
    let lines = first_line(file.as_slice()).after;
    if joined_file(rt.alloc(), lines)?.as_slice() == file.as_slice() {
        Ok(Some(Vec::from_slice(rt.alloc(), lines)?))
    } else {
        Err(SetupFault::JoinedChanged(String::from_str(rt.alloc(), path)?))
    }
}
