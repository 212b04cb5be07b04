//! What `carry` does: it ends a journal, and writes how the next one begins.

use crate::carried::{Target, Way, carry_desk};
use crate::fault::JournalCommandFault;
use crate::stepping::{Contents, see_read_back, take_steps};
use hd_command_line::{Carry, LibraryFiles};
use hd_folder::{Paths, file_path, name_part, part_path, see_no_file, write_part};
use hd_joining::grown_text;
use hd_journal::Journal;
use hd_library::{Library, joined_lines, read_file};
use hd_library_journal::{Keeping, LibraryJournalFault, end_journal, open_over};
use hd_periods::{FileKind, FileName, carry_steps};
use hd_turn_store::Unknown;
use std::io::Write;

/// Carries a library over to another catalogue: into an opening file, or to the next period of its folder.
///
/// # Errors
/// Something is in the way; a file can't be read or written, or is refused; out of memory.
pub fn carry_over(rt: &HostRuntime, order: &Carry<'_>) -> Result<(), JournalCommandFault> {
    let old = Paths::of(rt, &order.library)?;
    let catalogue = read_file(rt, "catalogue", order.to)?;
    let into = match old.numbered() {
        Some(period) => Target::Period {
            folder: period.folder(),
            number: period.number().saturating_add(1),
        },
        None => Target::File(order.into.unwrap_or("")),
    };
    let keeping = Keeping::of(&old);
    let before = if order.keeps_used {
        Some(old_text(rt, &keeping.library)?)
    } else {
        None
    };
    let way = Way {
        to: catalogue.as_slice(),
        write_off: order.write_off,
        keeps_of: before.as_ref().map(|text| text.as_slice()),
        most_gone: order.most_gone,
        into,
    };
    carry_files(rt, &keeping, &way)
}

/// The text of a library's catalogue, with the names that joined it.
///
/// # Errors
/// A file can't be read; out of memory.
fn old_text(rt: &HostRuntime, files: &LibraryFiles<'_>) -> Result<Vec<u8>, JournalCommandFault> {
    let catalogue = read_file(rt, "catalogue", files.catalogue)?;
    let joined = match files.joined {
        Some(path) => joined_lines(rt, path)?,
        None => None,
    };
    match joined {
        Some(lines) => Ok(grown_text(rt.alloc(), catalogue.as_slice(), lines.as_slice())?),
        None => Ok(catalogue),
    }
}

/// Carries the desk of a library's journal over, and then ends the journal. From its opening on to its end
/// nobody else has the journal open: no server takes a turn of it, which would be lost, and no other carry
/// writes the same files.
fn carry_files(
    rt: &HostRuntime,
    keeping: &Keeping<'_>,
    way: &Way<'_, '_, '_>,
) -> Result<(), JournalCommandFault> {
    if let Target::File(path) = way.into {
        see_no_file(rt, path)?;
    }
    let library = Library::read_text(rt, &keeping.library)?;
    let before = library.digest;
    let kept = open_over(rt, Unknown, keeping, library)?;
    let carried = carry_journal(rt, kept.answered_journal()?, before, way);
    report_end(rt, carried, end_journal(kept))
}

/// Reports on standard error where the journal before couldn't be ended, if its desk was carried over.
///
/// # Errors
/// Why it wasn't.
fn report_end<R: Eprint>(
    rt: &R,
    carried: Result<(), JournalCommandFault>,
    ended: Result<(), LibraryJournalFault>,
) -> Result<(), JournalCommandFault> {
    match carried {
        Err(fault) => Err(fault),
        Ok(()) => {
            if let Err(fault) = ended {
                let _reported = eprintln!(rt;
                    "carried over, but the journal before isn't ended: {fault}"
                );
            }
            Ok(())
        }
    }
}

/// Carries the desk of a journal over, and writes the files of the next period, or the opening file alone.
/// Another carry may have written them before the journal was opened.
fn carry_journal(
    rt: &HostRuntime,
    journal: &Journal,
    before: [u8; 32],
    way: &Way<'_, '_, '_>,
) -> Result<(), JournalCommandFault> {
    see_free(rt, &way.into)?;
    let carried = carry_desk(rt, journal, before, way)?;
    let opening = carried.opening.as_slice();
    match way.into {
        Target::File(path) => write_opening(rt, path, opening)?,
        Target::Period { folder, number } => {
            let contents = Contents {
                catalogue: carried.catalogue.as_slice(),
                opening,
                joined: &[],
                digest: carried.digest,
            };
            take_steps(rt, folder, &carry_steps(number), &contents)?;
        }
    }
    report_carried(rt, carried.report.as_slice());
    Ok(())
}

/// Checks that a carry writes over no opening, and over no names that joined.
///
/// # Errors
/// There is such a file; the system doesn't report it.
fn see_free(rt: &HostRuntime, into: &Target<'_>) -> Result<(), JournalCommandFault> {
    match into {
        Target::File(path) => Ok(see_no_file(rt, path)?),
        Target::Period { folder, number } => {
            for kind in [FileKind::Opening, FileKind::Joined] {
                let path = file_path(rt.alloc(), folder, &FileName::whole(*number, kind))?;
                see_no_file(rt, path.as_str())?;
            }
            Ok(())
        }
    }
}

/// Writes an opening whole, and reads it back before it gets its name.
///
/// # Errors
/// It can't be written, or other bytes are read back.
fn write_opening(rt: &HostRuntime, path: &str, opening: &[u8]) -> Result<(), JournalCommandFault> {
    let part = part_path(rt.alloc(), path)?;
    write_part(rt, part.as_str(), opening)?;
    see_read_back(rt, part.as_str(), opening)?;
    Ok(name_part(rt, part.as_str(), path)?)
}

/// Prints what was carried over. Where that can't be printed, the library has gone on all the same, and
/// standard error says so.
fn report_carried(rt: &HostRuntime, report: &[u8]) {
    if rt.stdout().write_all(report).is_err() {
        let _reported = eprintln!(rt; "carried over, but what was carried over can't be printed");
    }
}
