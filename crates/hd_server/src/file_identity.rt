//! Which file stands at a path.
ghost use Rattle.std.specs.Prelude.{◌↔◌, IsTrue};
ghost use Rattle.hd_server.specs.Files.{HasGone};

use std::fs;
use std::os::unix::fs::MetadataExt;

/// What tells a file from all others that there are at a time, whatever its name.
#[derive(Clone, Copy, PartialEq, Eq)]
pub(crate) struct FileIdentity {
    pub(crate) device: u64,
    pub(crate) inode: u64,
}

/// That of the first of these files, where it is at its path.
pub(crate) fn first_identity(host: &HostRuntime, files: &[&str]) -> Option<FileIdentity> {
    let found = fs::metadata(host, *files.first()?).ok()?;
    Some(FileIdentity {
        device: found.dev(),
        inode: found.ino(),
    })
}

/// Whether a file isn't at its path any more, by which file was there and which is there now: none is, or
/// another one.
pub(crate) fn has_gone(before: Option<FileIdentity>, now: Option<FileIdentity>) -> bool
    ensures { IsTrue result ↔ HasGone before now }
{
    match (before, now) {
        (_, None) => true,
        (None, Some(_)) => false,
        (Some(before), Some(now)) => before != now,
    }
}
