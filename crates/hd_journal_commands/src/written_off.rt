//! Loans that are written off when a library is carried over.

use crate::fault::JournalCommandFault;
use hd_catalogue::Catalogue;
use hd_desk::Desk;
use hd_library::read_list;
use hd_rules::{CopyNo, CopyState, PatronNo};
use hd_terminal_output::{copy_name, patron_name};
use std::alloc::AllocError;
use std::io::Write;

/// The copies whose names are in a file, one a line, each once. What is no copy's name is reported on
/// standard error, and passed over.
///
/// # Errors
/// The file can't be read; out of memory.
pub(crate) fn listed_copies(
    rt: &HostRuntime,
    catalogue: &Catalogue,
    path: Option<&str>,
) -> Result<Vec<CopyNo>, JournalCommandFault> {
    let mut copies = Vec::new(rt.alloc());
    let Some(path) = path else {
        return Ok(copies);
    };
    let mut is_listed = vec![in rt.alloc(); false; catalogue.copies()]?;
    let file = read_list(rt, path)?;
    for line in file.as_slice().split(|byte| *byte == b'\n') {
        let name = line.strip_suffix(b"\r").unwrap_or(line);
        match catalogue.copy(name) {
            Some(copy) => {
                if note(&mut is_listed, copy) {
                    copies.push(copy)?;
                }
            }
            None if name.is_empty() => {}
            None => tell_no_copy(rt, name)?,
        }
    }
    Ok(copies)
}

/// Notes a copy. Whether that is for the first time.
fn note(notes: &mut [bool], copy: CopyNo) -> bool {
    let number = copy.number() as usize;
    if number >= notes.len() {
        return true;
    }
    let is_first = !notes[number];
    notes[number] = true;
    is_first
}

/// Reports that a name is no copy's.
fn tell_no_copy(rt: &HostRuntime, name: &[u8]) -> Result<(), JournalCommandFault> {
    let mut line = Vec::new(rt.alloc());
    line.extend_from_slice(b"no copy is named ")?;
    line.extend_from_slice(name)?;
    line.push(b'\n')?;
    rt.stderr().write_all(line.as_slice())?;
    Ok(())
}

/// Adds which loans are dropped, a line for each.
pub(crate) fn push_written_off(
    lines: &mut Vec<u8>,
    desk: &Desk,
    copies: &[CopyNo],
) -> Result<(), AllocError> {
    let catalogue: &Catalogue = desk.catalogue();
    for copy in copies {
        if (copy.number() as usize) < catalogue.copies()
            && let CopyState::OnLoan(loan) = desk.copy(*copy)
        {
            push_loan(lines, catalogue, *copy, loan.patron)?;
        }
    }
    Ok(())
}

/// Adds the line of a copy whose loan to a patron is dropped.
fn push_loan(
    line: &mut Vec<u8>,
    catalogue: &Catalogue,
    copy: CopyNo,
    patron: PatronNo,
) -> Result<(), AllocError> {
    line.extend_from_slice(b"written off: copy ")?;
    line.extend_from_slice(copy_name(catalogue, copy))?;
    line.extend_from_slice(b", on loan to ")?;
    line.extend_from_slice(patron_name(catalogue, patron))?;
    line.push(b'\n')?;
    Ok(())
}
