//! Which period of a folder is the library.
ghost use Rattle.std.specs.Prelude.{◌≡◌, ◌≢◌, ◌⊎◌, ℕ, Decides, IfErr, IfNone, IfOk, IfSome, Option};
ghost use Rattle.std.specs.List.{Contains};
ghost use Rattle.hd_periods.specs.Periods.{HasFile, IsAccounted, IsBrokenOff, IsComplete, IsLastComplete};
ghost use Rattle.hd_periods.specs.Periods.{IsLibrary, IsUpTo, Lacks};

use crate::name::{FileKind, FileName, PeriodFile};

/// The period of the library of a folder with these names, if it has one: the last complete one.
///
/// # Errors
/// A file that a later period lacks, which it had. A library would else go back to what it was before that
/// period without a word.
pub fn library_of(names: &[FileName]) -> Result<Option<u32>, PeriodFile>
    ensures library { IfOk result (λ last. IsLibrary (Contains names.now) last) }
    ensures lacks { IfErr result (λ file. (last : Option ℕ) × Lacks (Contains names.now) last file) }
{
    let last = last_complete(names);
    for name in names {
        match lacking(names, last, name) {
            Some(file) => return Err(file),
            None => {}
        }
    }
    Ok(last)
}

/// The file that the period of a name lacks, where that is after the last complete one and no carry was
/// broken off at it.
fn lacking(names: &[FileName], last: Option<u32>, name: &FileName) -> Option<PeriodFile>
    requires { IsLastComplete (Contains names.now) last }
    ensures none { IfNone result (IsAccounted (Contains names.now) last name.now) }
    ensures some { IfSome result (λ file. Lacks (Contains names.now) last file) }
{
    let PeriodFile { number, kind } = name.file;
    if name.is_part || kind == FileKind::Joined || !is_after(last, number) {
        return None;
    }
    match missing(names, number) {
        Some(kind) => Some(PeriodFile { number, kind }),
        None => None,
    }
}

/// Whether a number is after the last one, if there is one.
fn is_after(last: Option<u32>, number: u32) -> bool
    ensures { Decides result (¬ IsUpTo last number) }
{
    match last {
        Some(last) => number > last,
        None => true,
    }
}

/// The first file that a period lacks which isn't complete, where no carry was broken off at it.
pub fn missing(names: &[FileName], number: u32) -> Option<FileKind>
    ensures none { IfNone result
        (IsBrokenOff (Contains names.now) number ⊎ IsComplete (Contains names.now) number) }
    ensures some { IfSome result (λ kind. ¬ HasFile (Contains names.now) number kind
        × ¬ IsBrokenOff (Contains names.now) number) }
{
    if is_broken_off(names, number) {
        return None;
    }
    let catalogue = FileName::whole(number, FileKind::Catalogue);
    let opening = FileName::whole(number, FileKind::Opening);
    let journal = FileName::whole(number, FileKind::Journal);
    if !is_listed(names, &catalogue) {
        Some(FileKind::Catalogue)
    } else if number != 1 && !is_listed(names, &opening) {
        Some(FileKind::Opening)
    } else if !is_listed(names, &journal) {
        Some(FileKind::Journal)
    } else {
        None
    }
}

/// Whether a carry, or a beginning, was broken off at a period.
fn is_broken_off(names: &[FileName], number: u32) -> bool
    ensures { Decides result (IsBrokenOff (Contains names.now) number) }
{
    if number == 1 {
        is_listed(names, &FileName::whole(number, FileKind::Catalogue))
    } else {
        !is_listed(names, &FileName::whole(number, FileKind::Opening))
            && is_listed(names, &FileName::part(number, FileKind::Opening))
    }
}

/// The last complete period of these names: the greatest number all of whose files are among them.
pub fn last_complete(names: &[FileName]) -> Option<u32>
    ensures { IsLastComplete (Contains names.now) result }
{
    let mut last = None;
    for name in names {
        last = later_complete(names, last, name.file.number);
    }
    last
}

/// The last complete period of those so far, if there is one, and of this one.
fn later_complete(names: &[FileName], last: Option<u32>, number: u32) -> Option<u32>
    ensures complete { IfSome last (IsComplete (Contains names.now))
        → IfSome result (IsComplete (Contains names.now)) }
    ensures later { (other : ℕ) → IsUpTo last other → IsUpTo result other }
    ensures this { IsComplete (Contains names.now) number → IsUpTo result number }
{
    match last {
        Some(last) if number <= last => Some(last),
        _ if is_complete(names, number) => Some(number),
        _ => last,
    }
}

/// Whether all files of a period are among these names. The first one has no opening.
fn is_complete(names: &[FileName], number: u32) -> bool
    ensures { Decides result (IsComplete (Contains names.now) number) }
{
    is_listed(names, &FileName::whole(number, FileKind::Catalogue))
        && is_listed(names, &FileName::whole(number, FileKind::Journal))
        && (number == 1 || is_listed(names, &FileName::whole(number, FileKind::Opening)))
}

/// Whether a name is one of these.
fn is_listed(names: &[FileName], wanted: &FileName) -> bool
    ensures { Decides result (Contains names.now wanted.now) }
{
    for name in names {
        if name.file.number == wanted.file.number
            && name.file.kind == wanted.file.kind
            && name.is_part == wanted.is_part
        {
            return true;
        }
    }
    false
}
