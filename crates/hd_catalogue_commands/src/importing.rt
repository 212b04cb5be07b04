//! What `import` does: it makes a catalogue file of a spreadsheet's files.

use crate::fault::CatalogueCommandFault;
use hd_catalogue::OffsetMinutes;
use hd_command_line::Import;
use hd_folder::{FolderFault, write_whole};
use hd_import::{
    Encoding, Fault as SheetFault, Format, Imported, Settings, Sheet, Source, Sources, all_sheets,
    import, unused_headings,
};
use hd_library::{SetupFault, read_list};
use std::alloc::{AllocError, Global};
use std::fs::{self, Metadata};
use std::os::unix::fs::MetadataExt;

/// The files of the sheets, as they were read.
struct Sheets {
    branches: Vec<u8>,
    terminals: Vec<u8>,
    patrons: Vec<u8>,
    titles: Vec<u8>,
    copies: Vec<u8>,
}

// Written out, so that a caller's proof sees one call and not the drop of each field.
impl Drop for Sheets {
    fn drop(self) {
        let Sheets {
            branches: _branches,
            terminals: _terminals,
            patrons: _patrons,
            titles: _titles,
            copies: _copies,
        } = self;
    }
}

/// Makes a catalogue file of sheets, puts it in its place, and tells what it has, and what of the sheets it
/// doesn't.
///
/// # Errors
/// A sheet can't be read; they make no catalogue file; that can't be written; out of memory.
pub fn import_sheets(rt: &HostRuntime, order: &Import<'_>) -> Result<(), CatalogueCommandFault> {
    see_replaceable(rt, order)?;
    let sheets = read_sheets(rt, order)?;
    let Imported { text, catalogue } = imported(rt.alloc(), order, &sheets)?;
    write_whole(rt, order.into, text.as_bytes())?;
    println!(rt;
        "branches: {}\nterminals: {}\npatrons: {}\ntitles: {}\ncopies: {}",
        catalogue.branches(),
        catalogue.terminals(),
        catalogue.patrons(),
        catalogue.titles(),
        catalogue.copies()
    )?;
    tell_unused(rt, order, &sheets)
}

/// Sees that the catalogue file may take the place of what is at its path. Where nothing is there it may; where
/// the system doesn't tell what is there, it says why when the file is written.
///
/// # Errors
/// What is there isn't replaced.
fn see_replaceable(rt: &HostRuntime, order: &Import<'_>) -> Result<(), CatalogueCommandFault> {
    let path = order.into;
    let Ok(file) = fs::symlink_metadata(rt, path) else {
        return Ok(());
    };
    match why_kept(rt, order, &file) {
        Some(why) => {
            let said = format!(in rt.alloc(); "{path}: {why}")?;
            Err(CatalogueCommandFault::from(FolderFault::CannotWrite(said)))
        }
        None => Ok(()),
    }
}

/// Why a file isn't replaced, if it isn't: it is a device, a folder, a link or the like, or one of the sheets.
fn why_kept(rt: &HostRuntime, order: &Import<'_>, file: &Metadata) -> Option<&'static str> {
    if !file.is_file() {
        return Some("it is no regular file");
    }
    for (sheet, why) in [
        (order.branches, "it is the sheet of branches"),
        (order.terminals, "it is the sheet of terminals"),
        (order.patrons, "it is the sheet of patrons"),
        (order.titles, "it is the sheet of titles"),
        (order.copies, "it is the sheet of copies"),
    ] {
        if is_at(rt, sheet, file) {
            return Some(why);
        }
    }
    None
}

/// Whether a path leads to this file.
fn is_at(rt: &HostRuntime, path: &str, file: &Metadata) -> bool {
    match fs::metadata(rt, path) {
        Ok(there) => there.dev() == file.dev() && there.ino() == file.ino(),
        Err(_) => false,
    }
}

/// Tells which headings of the sheets aren't used, in a line for each sheet that has such.
fn tell_unused(
    rt: &HostRuntime,
    order: &Import<'_>,
    sheets: &Sheets,
) -> Result<(), CatalogueCommandFault> {
    tell_unused_in(rt, format_of(order), &sources_of(order, sheets))
}

/// Tells which headings of sheets aren't used, where they are written so.
fn tell_unused_in(
    rt: &HostRuntime,
    format: Format,
    sources: &Sources<'_>,
) -> Result<(), CatalogueCommandFault> {
    for sheet in all_sheets() {
        tell_unused_of(rt, format, *sheet, sources.file_of(*sheet))?;
    }
    Ok(())
}

/// Tells which headings of a sheet aren't used, if there are such. Its rows were had before, so that memory
/// alone can be wanting.
fn tell_unused_of(
    rt: &HostRuntime,
    format: Format,
    sheet: Sheet,
    file: Source<'_>,
) -> Result<(), CatalogueCommandFault> {
    let alloc = rt.alloc();
    let Ok(unused) = unused_headings(alloc, format, sheet, file) else {
        return Err(CatalogueCommandFault::Memory);
    };
    if !unused.is_empty() {
        let headings = unused.as_slice().join(alloc, ", ")?;
        let line = in_a_line(alloc, headings.as_str())?;
        println!(rt; "{}: not used: {line}", file.path)?;
    }
    Ok(())
}

/// A text with a blank in the place of each control character, as a heading's end of a line.
fn in_a_line(alloc: Global, text: &str) -> Result<String, AllocError> {
    let mut line = String::new(alloc);
    for character in text.chars() {
        line.push(if character.is_control() {
            ' '
        } else {
            character
        })?;
    }
    Ok(line)
}

/// The catalogue file that sheets make.
///
/// # Errors
/// They make none.
fn imported(
    alloc: Global,
    order: &Import<'_>,
    sheets: &Sheets,
) -> Result<Imported, CatalogueCommandFault> {
    let Some(offset) = OffsetMinutes::new(order.offset) else {
        return Err(CatalogueCommandFault::Sheets(String::from_str(
            alloc,
            "the offset isn't -1439 to 1439 minutes",
        )?));
    };
    let settings = Settings {
        institution: order.institution,
        offset,
        commands: order.commands,
        loan_limit: order.loan_limit,
        loan_days: order.loan_days,
        renewals: order.renewals,
    };
    match import(
        alloc,
        &settings,
        format_of(order),
        &sources_of(order, sheets),
    ) {
        Ok(imported) => Ok(imported),
        Err(SheetFault::Memory) => Err(CatalogueCommandFault::Memory),
        Err(fault) => Err(CatalogueCommandFault::Sheets(format!(in alloc; "{fault}")?)),
    }
}

/// How the sheets are written.
fn format_of(order: &Import<'_>) -> Format {
    Format {
        encoding: if order.is_latin1 {
            Encoding::Latin1
        } else {
            Encoding::Utf8
        },
        separator: order.separator,
    }
}

/// The files of the sheets, by their paths and bytes.
fn sources_of<'a>(order: &Import<'a>, sheets: &'a Sheets) -> Sources<'a> {
    Sources {
        branches: source_of(order.branches, sheets.branches.as_slice()),
        terminals: source_of(order.terminals, sheets.terminals.as_slice()),
        patrons: source_of(order.patrons, sheets.patrons.as_slice()),
        titles: source_of(order.titles, sheets.titles.as_slice()),
        copies: source_of(order.copies, sheets.copies.as_slice()),
    }
}

/// The file of a sheet, by its path and bytes.
fn source_of<'a>(path: &'a str, bytes: &'a [u8]) -> Source<'a> {
    Source { path, bytes }
}

/// Reads the files of the sheets.
///
/// # Errors
/// One can't be read.
fn read_sheets(rt: &HostRuntime, order: &Import<'_>) -> Result<Sheets, SetupFault> {
    Ok(Sheets {
        branches: read_list(rt, order.branches)?,
        terminals: read_list(rt, order.terminals)?,
        patrons: read_list(rt, order.patrons)?,
        titles: read_list(rt, order.titles)?,
        copies: read_list(rt, order.copies)?,
    })
}
