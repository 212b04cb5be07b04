//! The steps that change a library's folder, and their order in a carry and in a join.
ghost use Rattle.std.specs.Prelude.{◌≡◌};
ghost use Rattle.hd_periods.specs.Names.{file};
ghost use Rattle.hd_periods.specs.Steps.{carry_steps, join_steps};

use crate::name::{FileKind, FileName, PeriodFile};

/// A call that changes a folder, or waits until the disk has what was changed.
#[derive(Clone, Copy)]
pub enum Step {
    /// Writes a file: a new one, or over the one that has this name.
    Write(FileName),
    /// Waits until the disk has the bytes of the file that has this name.
    Sync(FileName),
    /// Renames the part file of this file to its name. A file that has the name is replaced.
    Rename(PeriodFile),
    /// Removes a file, where it is there.
    Remove(PeriodFile),
    /// Waits until the disk has the names of the folder.
    SyncFolder,
}

/// The file of this kind of a period.
fn file(number: u32, kind: FileKind) -> PeriodFile
    ensures { result ≡ file number kind }
{
    PeriodFile { number, kind }
}

/// The steps of a carry to a period, and of a beginning of a period with an opening.
pub fn carry_steps(number: u32) -> [Step; 12]
    ensures { result ≡ carry_steps number }
{
    [
        Step::Write(FileName::part(number, FileKind::Opening)),
        Step::Sync(FileName::part(number, FileKind::Opening)),
        Step::Write(FileName::part(number, FileKind::Catalogue)),
        Step::Sync(FileName::part(number, FileKind::Catalogue)),
        Step::SyncFolder,
        Step::Rename(file(number, FileKind::Catalogue)),
        Step::Remove(file(number, FileKind::Journal)),
        Step::Write(FileName::whole(number, FileKind::Journal)),
        Step::Sync(FileName::whole(number, FileKind::Journal)),
        Step::SyncFolder,
        Step::Rename(file(number, FileKind::Opening)),
        Step::SyncFolder,
    ]
}

/// The steps of a join to a period.
pub fn join_steps(number: u32) -> [Step; 4]
    ensures { result ≡ join_steps number }
{
    [
        Step::Write(FileName::part(number, FileKind::Joined)),
        Step::Sync(FileName::part(number, FileKind::Joined)),
        Step::Rename(file(number, FileKind::Joined)),
        Step::SyncFolder,
    ]
}
