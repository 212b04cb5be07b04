//! What `journal views` prints.

use crate::fault::JournalCommandFault;
use hd_command_line::{JournalViews, VIEWS};
use hd_library::{SetupFault, read_file};
use hd_opening::{OpeningCause, OpeningFault};
use std::alloc::{AllocError, Global};
use std::io::Write;

/// The table of the loans that a journal began with.
const OPENED: &[u8] = b"-- The loans that the journal began with.
CREATE TEMP TABLE opened (copy TEXT NOT NULL, patron TEXT NOT NULL, until TEXT NOT NULL);
";

/// How an opening file begins.
const HEADER: &[u8] = b"H|opening|1|";

/// Prints the views of a journal's file, and the loans of its opening file, if it has one.
///
/// # Errors
/// The opening file can't be read, or has another first line; the output can't be written.
pub fn print_views(rt: &HostRuntime, order: &JournalViews<'_>) -> Result<(), JournalCommandFault> {
    let loans = match order.opening {
        Some(path) => read_loans(rt, path)?,
        None => Vec::new(rt.alloc()),
    };
    rt.stdout().write_all(opened())?;
    rt.stdout().write_all(loans.as_slice())?;
    rt.stdout().write_all(b"\n")?;
    rt.stdout().write_all(views())?;
    Ok(())
}

/// The statements that insert the loans of the opening file at a path.
///
/// # Errors
/// It can't be read, or has another first line than an opening file.
fn read_loans(rt: &HostRuntime, path: &str) -> Result<Vec<u8>, JournalCommandFault> {
    let file = read_file(rt, "opening", path)?;
    if file.as_slice().starts_with(header()) {
        Ok(loans_of(rt.alloc(), file.as_slice())?)
    } else {
        let fault = OpeningFault {
            line: 1,
            cause: OpeningCause::Header,
        };
        Err(JournalCommandFault::from(SetupFault::Opening(fault)))
    }
}

/// How an opening file begins, by a call too.
fn header() -> &'static [u8] {
    HEADER
}

/// The views. The proof of a function that calls this has one name for them, and that of one that names the
/// constant all their bytes.
fn views() -> &'static [u8] {
    VIEWS.as_bytes()
}

/// The statement of the table of loans, by a call too.
fn opened() -> &'static [u8] {
    OPENED
}

/// The statements that insert the loans of an opening file.
fn loans_of(alloc: Global, file: &[u8]) -> Result<Vec<u8>, AllocError> {
    let mut text = Vec::new(alloc);
    for line in file.split(|byte| *byte == b'\n') {
        if let Some(loan) = line.strip_prefix(b"L|") {
            push_loan(&mut text, loan)?;
        }
    }
    Ok(text)
}

/// Adds the statement of a loan: copy, patron, day and renewals, each after a bar.
fn push_loan(text: &mut Vec<u8>, loan: &[u8]) -> Result<(), AllocError> {
    let mut values = loan.split(|byte| *byte == b'|');
    let (copy, patron, due) = (values.next(), values.next(), values.next());
    let (Some(copy), Some(patron), Some(due)) = (copy, patron, due) else {
        return Ok(());
    };
    text.extend_from_slice(b"INSERT INTO opened VALUES ('")?;
    push_quoted(text, copy)?;
    text.extend_from_slice(b"', '")?;
    push_quoted(text, patron)?;
    text.extend_from_slice(b"', '")?;
    push_day(text, due)?;
    text.extend_from_slice(b"');\n")?;
    Ok(())
}

/// Adds a text in which each quote is doubled.
fn push_quoted(text: &mut Vec<u8>, value: &[u8]) -> Result<(), AllocError> {
    for byte in value {
        if *byte == b'\'' {
            text.push(b'\'')?;
        }
        text.push(*byte)?;
    }
    Ok(())
}

/// Adds a day, as 2026-03-01 where it is 20260301.
fn push_day(text: &mut Vec<u8>, day: &[u8]) -> Result<(), AllocError> {
    for (at, byte) in day.iter().enumerate() {
        if at == 4 || at == 6 {
            text.push(b'-')?;
        }
        text.push(*byte)?;
    }
    Ok(())
}
