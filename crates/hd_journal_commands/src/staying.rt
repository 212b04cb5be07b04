//! What a library keeps although a catalogue file whose names join it has other values.

use crate::kind::{KINDS, Kind};
use hd_catalogue::{Catalogue, Values, first_line, is_letter, number};
use hd_rules::{MOST_LOAN_DAYS, MOST_LOANS, MOST_RENEWALS};
use std::alloc::{AllocError, Global};

/// How many names of a kind are reported.
const MOST_NAMED: usize = 20;

/// Whether a catalogue has just these values of a name of a kind, which are after it in a line.
fn is_same(kind: Kind, old: &Catalogue, name: &[u8], values: &mut Values<'_>) -> bool {
    match kind {
        Kind::Branch => true,
        Kind::Terminal => is_same_terminal(old, name, values),
        Kind::Patron => is_same_patron(old, name, values),
        Kind::Title => is_same_title(old, name, values),
        Kind::Copy => is_same_copy(old, name, values),
    }
}

/// The next value of a line, empty where there is none.
fn next<'a>(values: &mut Values<'a>) -> &'a [u8] {
    match values.take() {
        Some(value) => value,
        None => b"",
    }
}

/// Whether a terminal has this password and branch.
fn is_same_terminal(old: &Catalogue, name: &[u8], values: &mut Values<'_>) -> bool {
    let (password, branch) = (next(values), next(values));
    match old.terminal(name, password) {
        Some(terminal) => old.branch_name(old.branch_of(terminal)) == branch,
        None => false,
    }
}

/// Whether a patron has this loan limit.
fn is_same_patron(old: &Catalogue, name: &[u8], values: &mut Values<'_>) -> bool {
    match old.patron(name) {
        Some(patron) => number(MOST_LOANS, next(values)) == Some(old.loan_limit(patron)),
        None => false,
    }
}

/// Whether a title has these loan days, renewals and priority.
fn is_same_title(old: &Catalogue, name: &[u8], values: &mut Values<'_>) -> bool {
    let (days, renewals) = (next(values), next(values));
    let is_local = next(values) == b"L".as_slice();
    match old.title(name) {
        Some(title) => {
            number(MOST_LOAN_DAYS, days) == Some(old.loan_days(title))
                && number(MOST_RENEWALS, renewals) == Some(old.renewals(title))
                && is_local == old.priority(title)
        }
        None => false,
    }
}

/// Whether a copy has this title and home.
fn is_same_copy(old: &Catalogue, name: &[u8], values: &mut Values<'_>) -> bool {
    let (title, home) = (next(values), next(values));
    match old.copy(name) {
        Some(copy) => {
            old.title_name(old.title_of(copy)) == title && old.branch_name(old.home(copy)) == home
        }
        None => false,
    }
}

/// Names of a kind that are reported: how many, and the first of them.
#[derive(Drop)]
struct Noted {
    count: usize,
    names: Vec<u8>,
}

impl Noted {
    /// None.
    fn none(alloc: Global) -> Noted {
        Noted {
            count: 0,
            names: Vec::new(alloc),
        }
    }

    /// Notes a name.
    fn note(&mut self, name: &[u8]) -> Result<(), AllocError> {
        if self.count < MOST_NAMED {
            if self.count > 0 {
                self.names.extend_from_slice(b", ")?;
            }
            self.names.extend_from_slice(name)?;
        } else if self.count == MOST_NAMED {
            self.names.extend_from_slice(b", ..")?;
        }
        self.count = self.count.saturating_add(1);
        Ok(())
    }

    /// Appends a line that reports them, where there are any.
    fn push_line(
        &self,
        alloc: Global,
        out: &mut Vec<u8>,
        kind: Kind,
        what: &str,
    ) -> Result<(), AllocError> {
        if self.count == 0 {
            return Ok(());
        }
        let (several, count) = (kind.several(), self.count);
        let told = format!(in alloc; "{several} {what}: {count} (")?;
        out.extend_from_slice(told.as_bytes())?;
        out.extend_from_slice(self.names.as_slice())?;
        out.extend_from_slice(b")\n")?;
        Ok(())
    }
}

/// What of a library a catalogue file that is accepted doesn't change, a line for each kind of it: names that
/// the file lacks, and names with other values there. `given` is the catalogue of the file.
///
/// # Errors
/// Out of memory.
pub(crate) fn staying_text(
    alloc: Global,
    old: &Catalogue,
    given: &Catalogue,
    file: &[u8],
) -> Result<Vec<u8>, AllocError> {
    let mut out = Vec::new(alloc);
    if !has_same_settings(old, given) {
        out.extend_from_slice(b"the first line has other values in the file, unchanged here\n")?;
    }
    for kind in KINDS {
        push_staying(alloc, &mut out, old, file, kind)?;
    }
    Ok(out)
}

/// Whether two catalogues have one institution, offset and limit of commands.
fn has_same_settings(old: &Catalogue, given: &Catalogue) -> bool {
    old.institution() == given.institution()
        && old.offset() == given.offset()
        && old.command_limit() == given.command_limit()
}

/// Appends what stays of a kind.
///
/// # Errors
/// Out of memory.
fn push_staying(
    alloc: Global,
    out: &mut Vec<u8>,
    old: &Catalogue,
    file: &[u8],
    kind: Kind,
) -> Result<(), AllocError> {
    let mut is_named = vec![in alloc; false; kind.count(old)]?;
    let mut other = Noted::none(alloc);
    let mut rest = first_line(file).after;
    // A file has no more lines than bytes.
    for _ in 0..file.len() {
        if rest.is_empty() {
            break;
        }
        let first = first_line(rest);
        note_line(old, kind, first.line, &mut is_named, &mut other)?;
        rest = first.after;
    }
    let mut lacking = Noted::none(alloc);
    for (at, is) in is_named.iter().enumerate() {
        if !*is {
            lacking.note(kind.name(old, at))?;
        }
    }
    lacking.push_line(alloc, out, kind, "that the file lacks, kept")?;
    other.push_line(
        alloc,
        out,
        kind,
        "with other values in the file, unchanged here",
    )
}

/// Notes the name of a line, where it is of a kind and the catalogue has it.
///
/// # Errors
/// Out of memory.
fn note_line(
    old: &Catalogue,
    kind: Kind,
    line: &[u8],
    is_named: &mut [bool],
    other: &mut Noted,
) -> Result<(), AllocError> {
    let mut values = Values::of(line);
    if !is_letter(kind.letter(), next(&mut values)) {
        return Ok(());
    }
    let name = next(&mut values);
    let Some(at) = kind.number(old, name) else {
        return Ok(());
    };
    if at < is_named.len() {
        is_named[at] = true;
    }
    if is_same(kind, old, name, &mut values) {
        Ok(())
    } else {
        other.note(name)
    }
}
