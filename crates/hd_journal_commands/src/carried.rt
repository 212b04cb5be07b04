//! A desk carried over into an opening file.

use crate::counted::{counts_of, push_kept};
use crate::fault::JournalCommandFault;
use crate::written_off::{listed_copies, push_written_off};
use hd_carry::{CarryFault, Obstacle, carry, obstacle_text};
use hd_catalogue::Catalogue;
use hd_desk::Desk;
use hd_joining::grown_text;
use hd_journal::Journal;
use hd_library::{Library, SetupFault};
use hd_merge::{Needed, kept_lines};
use hd_rules::CopyNo;
use std::alloc::{AllocError, Global};

/// Which way a desk is to be carried over.
#[derive(Clone, Copy)]
pub(crate) struct Way<'to, 'off, 'into> {
    /// The bytes of the new catalogue file.
    pub(crate) to: &'to [u8],
    /// The file of copies whose loans are dropped, if there is one.
    pub(crate) write_off: Option<&'off str>,
    /// The text of the old catalogue, with the names that joined it, whose names are kept where they are still
    /// needed; `None` where what is needed is in the way.
    pub(crate) keeps_of: Option<&'to [u8]>,
    /// How many of 100 old names of a kind may go, where that is limited.
    pub(crate) most_gone: Option<u32>,
    /// Where the opening is to be.
    pub(crate) into: Target<'into>,
}

/// Where the opening of a carry is to be.
#[derive(Clone, Copy)]
pub(crate) enum Target<'a> {
    /// At a path.
    File(&'a str),
    /// In the next period of a folder, with this number.
    Period { folder: &'a str, number: u32 },
}

/// A desk that was carried over. No file is written yet.
#[derive(Drop)]
pub(crate) struct Carried {
    /// The lines that report it.
    pub(crate) report: Vec<u8>,
    /// The bytes of the catalogue file.
    pub(crate) catalogue: Vec<u8>,
    /// The bytes of the opening.
    pub(crate) opening: Vec<u8>,
    /// The SHA-256 of the opening.
    pub(crate) digest: [u8; 32],
}

/// Carries the desk of a journal over. `before` is the SHA-256 of the file that the journal begins with.
///
/// # Errors
/// Something is in the way; the new catalogue can't be read or is refused.
pub(crate) fn carry_desk(
    rt: &HostRuntime,
    journal: &Journal,
    before: [u8; 32],
    way: &Way<'_, '_, '_>,
) -> Result<Carried, JournalCommandFault> {
    let desk = journal.desk();
    let last = last_number(journal)?;
    let written_off = listed_copies(rt, desk.catalogue(), way.write_off)?;
    let next = next_library(rt, desk, last, way, written_off.as_slice())?;
    let counts = counts_of(rt.alloc(), desk.catalogue(), &next, way)?;
    let Next {
        library,
        catalogue,
        kept,
    } = next;
    let opening = opening_of(rt.alloc(), &library)?;
    let digest = library.opened_by(rt, opening.as_slice())?.digest;
    let mut report = Vec::new(rt.alloc());
    push_written_off(&mut report, desk, written_off.as_slice())?;
    push_kept(&mut report, kept.as_slice())?;
    let numbers = numbers_of(rt.alloc(), journal.front(), last, before, digest)?;
    report.extend_from_slice(numbers.as_bytes())?;
    report.extend_from_slice(counts.as_slice())?;
    Ok(Carried {
        report,
        catalogue,
        opening,
        digest,
    })
}

/// The lines of a journal's number of turns, of the last number that was given, and of the SHA-256 of the
/// opening that it begins with, and of the one that the next journal begins with.
fn numbers_of(
    alloc: Global,
    turns: usize,
    last: u32,
    before: [u8; 32],
    digest: [u8; 32],
) -> Result<String, AllocError> {
    let old = hex::encode(alloc, before)?;
    let new = hex::encode(alloc, digest)?;
    format!(in alloc; "turns: {turns}\nlast number: {last}\nold: {old}\nnew: {new}\n")
}

/// The last number that was given in a journal, or before it.
fn last_number(journal: &Journal) -> Result<u32, JournalCommandFault> {
    match u32::try_from(journal.last()) {
        Ok(last) => Ok(last),
        Err(_) => Err(JournalCommandFault::NumbersUsedUp),
    }
}

/// The library that a desk is carried over to.
#[derive(Drop)]
pub(crate) struct Next {
    /// It begins with the desk.
    pub(crate) library: Library,
    /// The bytes of its catalogue file.
    pub(crate) catalogue: Vec<u8>,
    /// The lines that it keeps of the old catalogue, each with its end.
    pub(crate) kept: Vec<u8>,
}

/// The library of a new catalogue file, and of the old names that it keeps, whose journal begins with a desk.
///
/// # Errors
/// Something is in the way; a catalogue is refused.
fn next_library(
    rt: &HostRuntime,
    desk: &Desk,
    last: u32,
    way: &Way<'_, '_, '_>,
    written_off: &[CopyNo],
) -> Result<Next, JournalCommandFault> {
    let alloc = rt.alloc();
    let library = Library::of_catalogue(rt, way.to)?.with_text()?;
    let obstacles = match carry(alloc, desk, last, &library.catalogue, written_off) {
        Ok(rows) => {
            return Ok(Next {
                library: library.beginning_with(rows, last)?,
                catalogue: Vec::from_slice(alloc, way.to)?,
                kept: Vec::new(alloc),
            });
        }
        Err(CarryFault::Memory) => return Err(JournalCommandFault::Memory),
        Err(CarryFault::InTheWay(obstacles)) => obstacles,
    };
    let kept = kept_of(
        alloc,
        desk,
        &library.catalogue,
        way.keeps_of,
        obstacles.as_slice(),
    )?;
    if kept.is_empty() {
        return Err(in_the_way(
            rt,
            desk.catalogue(),
            &library.catalogue,
            obstacles.as_slice(),
        )?);
    }
    drop(library);
    keeping_library(rt, desk, last, way.to, kept, written_off)
}

/// The lines of the old catalogue that are kept because of obstacles.
fn kept_of(
    alloc: Global,
    desk: &Desk,
    new: &Catalogue,
    keeps_of: Option<&[u8]>,
    obstacles: &[Obstacle],
) -> Result<Vec<u8>, AllocError> {
    let Some(text) = keeps_of else {
        return Ok(Vec::new(alloc));
    };
    let old: &Catalogue = desk.catalogue();
    let needed = Needed::new(alloc, old, obstacles)?;
    kept_lines(alloc, old, new, &needed, text)
}

/// The library of a new catalogue file and of lines that it keeps of the old one.
///
/// # Errors
/// Something is still in the way; with these lines the catalogue is refused.
fn keeping_library(
    rt: &HostRuntime,
    desk: &Desk,
    last: u32,
    to: &[u8],
    kept: Vec<u8>,
    written_off: &[CopyNo],
) -> Result<Next, JournalCommandFault> {
    let catalogue = grown_text(rt.alloc(), to, kept.as_slice())?;
    let library = match Library::of_catalogue(rt, catalogue.as_slice()) {
        Ok(library) => library.with_text()?,
        Err(fault) => return Err(JournalCommandFault::NotKept(fault)),
    };
    match carry(rt.alloc(), desk, last, &library.catalogue, written_off) {
        Ok(rows) => Ok(Next {
            library: library.beginning_with(rows, last)?,
            catalogue,
            kept,
        }),
        Err(CarryFault::Memory) => Err(JournalCommandFault::Memory),
        Err(CarryFault::InTheWay(obstacles)) => {
            Err(in_the_way(
                rt,
                desk.catalogue(),
                &library.catalogue,
                obstacles.as_slice(),
            )?)
        }
    }
}

/// The text of how the journal of a library begins, whose digest is that of the catalogue file.
fn opening_of(alloc: Global, library: &Library) -> Result<Vec<u8>, AllocError> {
    let catalogue = &library.catalogue;
    let (rows, last) = (catalogue.opening(), catalogue.last_before());
    hd_opening::write(alloc, catalogue, rows, last, &library.digest)
}

/// The fault with a line for each thing that is in the way.
fn in_the_way(
    rt: &HostRuntime,
    old: &Catalogue,
    new: &Catalogue,
    obstacles: &[Obstacle],
) -> Result<JournalCommandFault, JournalCommandFault> {
    Ok(JournalCommandFault::InTheWay(lines_of(rt, old, new, obstacles)?))
}

/// What is in the way, a line for each thing.
fn lines_of(
    rt: &HostRuntime,
    old: &Catalogue,
    new: &Catalogue,
    obstacles: &[Obstacle],
) -> Result<String, JournalCommandFault> {
    let alloc = rt.alloc();
    let mut lines = Vec::new(alloc);
    for obstacle in obstacles {
        if !lines.is_empty() {
            lines.push(b'\n')?;
        }
        let text = obstacle_text(alloc, old, new, obstacle)?;
        lines.extend_from_slice(text.as_slice())?;
    }
    match String::from_utf8(lines) {
        Ok(lines) => Ok(lines),
        Err(_) => Err(JournalCommandFault::from(SetupFault::CatalogueIsNoText)),
    }
}
