//! What `journal join` does: it has names join a library that isn't served.
//!
//! The lines that join are kept in one file of the library's period, as 0001.joined. Its part file is
//! written, synced and renamed, by the steps of a join, and no other file changes: the catalogue and the
//! opening stay, and with them the digest in the journal's head. So a stop leaves the lines that had joined
//! before, or these with the new ones. It may leave a file 0001.joined.part too, which nothing reads and the
//! next join writes over. The journal is open from before the names are written until they are there, so that
//! no server and no carry goes on without them. A server that read the library before, and opens the journal
//! afterwards, finds that the file has another length, and begins again.

use crate::fault::JournalCommandFault;
use crate::staying::staying_text;
use crate::stepping::{Contents, take_steps};
use hd_catalogue::Catalogue;
use hd_command_line::{JournalJoin, Place};
use hd_folder::{FolderFault, Paths, Period};
use hd_joining::{grown_text, joining};
use hd_library::{Library, joined_file, joined_lines, read_file};
use hd_library_journal::{Keeping, end_journal, open_over};
use hd_periods::join_steps;
use hd_turn_store::Unknown;
use std::io::Write;

/// How many names there are of each kind.
#[derive(Clone, Copy)]
struct Counts {
    branches: usize,
    terminals: usize,
    patrons: usize,
    titles: usize,
    copies: usize,
}

impl Counts {
    /// How many a catalogue has.
    fn of(catalogue: &Catalogue) -> Counts {
        Counts {
            branches: catalogue.branches(),
            terminals: catalogue.terminals(),
            patrons: catalogue.patrons(),
            titles: catalogue.titles(),
            copies: catalogue.copies(),
        }
    }

    /// Prints how many more there are than before.
    fn tell_since<R: Print>(&self, rt: &R, before: &Counts) -> Result<(), JournalCommandFault> {
        println!(rt;
            "joined branches: {}\njoined terminals: {}\njoined patrons: {}\njoined titles: {}\n\
            joined copies: {}",
            self.branches.saturating_sub(before.branches),
            self.terminals.saturating_sub(before.terminals),
            self.patrons.saturating_sub(before.patrons),
            self.titles.saturating_sub(before.titles),
            self.copies.saturating_sub(before.copies)
        )?;
        Ok(())
    }
}

/// Has the names of a catalogue file that a library lacks join it. Reports how many did, and what of the
/// library the file doesn't change.
pub fn join_library(rt: &HostRuntime, order: &JournalJoin<'_>) -> Result<(), JournalCommandFault> {
    let alloc = rt.alloc();
    let paths = Paths::of(rt, &Place::Folder(order.folder))?;
    paths.tell(rt, "joining")?;
    let library = Library::read_text(rt, &paths.files())?;
    let file = read_file(rt, "catalogue", order.catalogue)?;
    let given = Library::of_catalogue(rt, file.as_slice())?.with_text()?;
    let old = &library.catalogue;
    let staying = staying_text(alloc, old, &given.catalogue, file.as_slice())?;
    let lines = joining(alloc, old, file.as_slice())?;
    if lines.is_empty() {
        println!(rt; "nothing joins: the library has all these names")?;
    } else {
        join_lines(rt, &paths, library, lines.as_slice())?;
    }
    rt.stdout().write_all(staying.as_slice())?;
    Ok(())
}

/// Has the names of these lines join a library, and reports how many did. The turns of its journal are taken
/// again over the catalogue that comes of it.
fn join_lines(
    rt: &HostRuntime,
    paths: &Paths,
    library: Library,
    lines: &[u8],
) -> Result<(), JournalCommandFault> {
    let keeping = Keeping::of(paths);
    let before = Counts::of(&library.catalogue);
    let path = keeping.library.joined.unwrap_or("");
    let mut joined = lines_before(rt, path)?;
    let catalogue = read_file(rt, "catalogue", keeping.library.catalogue)?;
    let text = grown_text(rt.alloc(), catalogue.as_slice(), joined.as_slice())?;
    let grown = grown_library(rt, library, text.as_slice(), lines)?;
    let after = Counts::of(&grown.catalogue);
    joined.extend_from_slice(lines)?;
    let file = joined_file(rt.alloc(), joined.as_slice())?;
    let kept = open_over(rt, Unknown, &keeping, grown)?;
    let written = write_joined(rt, keeping.period, file.as_slice());
    let ended = end_journal(kept);
    written?;
    after.tell_since(rt, &before)?;
    if let Err(fault) = ended {
        eprintln!(rt; "joined, but the journal isn't ended: {fault}")?;
    }
    Ok(())
}

/// Writes the file of the names that joined a period.
///
/// # Errors
/// The library is in no folder; the system refuses a step; out of memory.
fn write_joined(
    rt: &HostRuntime,
    period: Option<&Period>,
    file: &[u8],
) -> Result<(), JournalCommandFault> {
    let Some(period) = period else {
        return Err(JournalCommandFault::from(FolderFault::NoLibrary(String::new(rt.alloc()))));
    };
    let contents = Contents {
        catalogue: &[],
        opening: &[],
        joined: file,
        digest: [0; 32],
    };
    take_steps(rt, period.folder(), &join_steps(period.number()), &contents)
}

/// The lines that joined before.
fn lines_before(rt: &HostRuntime, path: &str) -> Result<Vec<u8>, JournalCommandFault> {
    match joined_lines(rt, path)? {
        Some(lines) => Ok(lines),
        None => Ok(Vec::new(rt.alloc())),
    }
}

/// The library whose catalogue has this text, and then these lines.
///
/// # Errors
/// What comes of it is refused.
fn grown_library(
    rt: &HostRuntime,
    library: Library,
    text: &[u8],
    lines: &[u8],
) -> Result<Library, JournalCommandFault> {
    match library.joined_by(rt, text, lines, None) {
        Ok(grown) => Ok(grown),
        Err(fault) => Err(JournalCommandFault::NotJoined(fault)),
    }
}
