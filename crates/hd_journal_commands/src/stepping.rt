//! The steps of a carry, a beginning and a join, done one after another in the order that `hd_periods` has
//! them.
ghost use Rattle.std.specs.Prelude.{◌≡◌, OnOk};

use crate::fault::JournalCommandFault;
use hd_folder::Changing;
use hd_library::read_file;
use hd_library_journal::{fill_at, make_at};
use hd_periods::{FileKind, FileName, Step};

/// What the files of a period are to have. Those that no step writes may be empty.
#[derive(Clone, Copy)]
pub(crate) struct Contents<'a> {
    /// The bytes of the catalogue.
    pub(crate) catalogue: &'a [u8],
    /// The bytes of the opening.
    pub(crate) opening: &'a [u8],
    /// The bytes of the file of names that joined.
    pub(crate) joined: &'a [u8],
    /// The digest with which the journal begins.
    pub(crate) digest: [u8; 32],
}

impl<'a> Contents<'a> {
    /// The bytes of a file. A journal is written by SQLite.
    fn of(&self, kind: FileKind) -> &'a [u8] {
        match kind {
            FileKind::Catalogue => self.catalogue,
            FileKind::Opening => self.opening,
            FileKind::Joined => self.joined,
            FileKind::Journal => &[],
        }
    }
}

/// Does steps in a folder. What a stop leaves before, between and after them is proved of the list of steps.
///
/// # Errors
/// The system refuses one; of an opening other bytes are read back; out of memory.
pub(crate) fn take_steps(
    rt: &HostRuntime,
    folder: &str,
    steps: &[Step],
    contents: &Contents<'_>,
) -> Result<(), JournalCommandFault> {
    let mut changing = Changing::of(rt, folder);
    for step in steps {
        take_step(rt, &mut changing, step, contents)?;
    }
    Ok(())
}

/// Does a step.
fn take_step(
    rt: &HostRuntime,
    changing: &mut Changing<'_>,
    step: &Step,
    contents: &Contents<'_>,
) -> Result<(), JournalCommandFault> {
    match step {
        Step::Write(name) => write(rt, changing, name, contents),
        Step::Sync(name) => sync(rt, changing, name, contents),
        Step::Rename(_) | Step::Remove(_) | Step::SyncFolder => Ok(changing.take(step, &[])?),
    }
}

/// Writes a file; of a journal, makes an empty one.
fn write(
    rt: &HostRuntime,
    changing: &mut Changing<'_>,
    name: &FileName,
    contents: &Contents<'_>,
) -> Result<(), JournalCommandFault> {
    match name.file.kind {
        FileKind::Journal => Ok(make_at(rt, changing.path(name)?.as_str())?),
        kind => Ok(changing.take(&Step::Write(*name), contents.of(kind))?),
    }
}

/// Waits until the disk has the bytes of a file. Of an opening, these are then read back. Of a journal,
/// SQLite writes them before it waits.
fn sync(
    rt: &HostRuntime,
    changing: &mut Changing<'_>,
    name: &FileName,
    contents: &Contents<'_>,
) -> Result<(), JournalCommandFault> {
    let path = changing.path(name)?;
    match name.file.kind {
        FileKind::Journal => Ok(fill_at(rt, path.as_str(), &contents.digest)?),
        FileKind::Opening => {
            changing.take(&Step::Sync(*name), contents.opening)?;
            see_read_back(rt, path.as_str(), contents.opening)
        }
        FileKind::Catalogue | FileKind::Joined => Ok(changing.take(&Step::Sync(*name), &[])?),
    }
}

/// Checks that just the bytes of an opening are read back that were written.
///
/// # Errors
/// Others are; the file can't be read.
pub(crate) fn see_read_back(
    rt: &HostRuntime,
    path: &str,
    written: &[u8],
) -> Result<(), JournalCommandFault> {
    let read = read_file(rt, "opening", path)?;
    see_same(written, read.as_slice())
}

/// Checks that just the bytes are read back that were written.
///
/// # Errors
/// Others are.
fn see_same(written: &[u8], read: &[u8]) -> Result<(), JournalCommandFault>
    ensures { OnOk result (read.now ≡ written.now) }
{
    if written == read {
        Ok(())
    } else {
        Err(JournalCommandFault::NotCarriedOver)
    }
}
