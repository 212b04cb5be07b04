//! How much goes over in a carry, comes and goes.

use crate::carried::{Next, Way};
use crate::fault::JournalCommandFault;
use crate::kind::{KINDS, Kind};
use hd_catalogue::{Catalogue, Values, first_line, is_letter};
use hd_rules::OpeningRow;
use std::alloc::{AllocError, Global};

/// How many names of a kind came, went, and were kept, of how many old ones.
#[derive(Clone, Copy)]
struct Names {
    old: usize,
    came: usize,
    went: usize,
    kept: usize,
}

impl Names {
    /// Those of a kind, between an old catalogue and a new one that keeps these lines of it.
    fn of(kind: Kind, old: &Catalogue, new: &Catalogue, kept: &[u8]) -> Names {
        let before = kind.count(old);
        let went = (0..before)
            .filter(|number| kind.number(new, kind.name(old, *number)).is_none())
            .count();
        let stayed = before.saturating_sub(went);
        Names {
            old: before,
            came: kind.count(new).saturating_sub(stayed),
            went,
            kept: lines_of(kind, kept),
        }
    }

    /// Whether more of 100 old names went than may.
    fn are_too_many_gone(&self, most: u32) -> bool {
        (self.went as u64).saturating_mul(100) > (self.old as u64).saturating_mul(u64::from(most))
    }
}

/// How many of these lines define a name of a kind.
fn lines_of(kind: Kind, lines: &[u8]) -> usize {
    let mut count = 0usize;
    let mut rest = lines;
    // There are no more lines than bytes.
    for _ in 0..lines.len() {
        if rest.is_empty() {
            break;
        }
        let next = first_line(rest);
        if let Some(letter) = Values::of(next.line).take()
            && is_letter(kind.letter(), letter)
        {
            count = count.saturating_add(1);
        }
        rest = next.after;
    }
    count
}

/// The lines that report, by kind, how many names came, went and were kept, and how much was carried over. Without
/// the options that may keep names, or refuse that they go, there are none.
///
/// # Errors
/// More names go than may; out of memory.
pub(crate) fn counts_of(
    alloc: Global,
    old: &Catalogue,
    next: &Next,
    way: &Way<'_, '_, '_>,
) -> Result<Vec<u8>, JournalCommandFault> {
    let mut out = Vec::new(alloc);
    if way.keeps_of.is_none() && way.most_gone.is_none() {
        return Ok(out);
    }
    let mut gone = String::new(alloc);
    for kind in KINDS {
        let names = Names::of(kind, old, &next.library.catalogue, next.kept.as_slice());
        if names.are_too_many_gone(way.most_gone.unwrap_or(100)) {
            push_gone(alloc, &mut gone, kind, &names)?;
        }
        push_names(alloc, &mut out, kind, &names)?;
    }
    if !gone.is_empty() {
        return Err(JournalCommandFault::TooManyGone(gone));
    }
    push_rows(alloc, &mut out, next.library.catalogue.opening())?;
    Ok(out)
}

/// Appends a line for a kind of which more names go than may.
fn push_gone(
    alloc: Global,
    lines: &mut String,
    kind: Kind,
    names: &Names,
) -> Result<(), AllocError> {
    if !lines.is_empty() {
        lines.push('\n')?;
    }
    let Names { old, went, .. } = names;
    let line = format!(in alloc; "{went} of {old} {} would go", kind.several())?;
    lines.push_str(line.as_str())
}

/// Appends the line of a kind.
fn push_names(
    alloc: Global,
    out: &mut Vec<u8>,
    kind: Kind,
    names: &Names,
) -> Result<(), AllocError> {
    let Names {
        came,
        went,
        kept,
        ..
    } = names;
    let line = format!(in alloc;
        "{}: {came} came, {went} went, {kept} kept\n",
        kind.several()
    )?;
    out.extend_from_slice(line.as_bytes())
}

/// Appends how many loans, holds, places and transits go over.
fn push_rows(alloc: Global, out: &mut Vec<u8>, rows: &[OpeningRow]) -> Result<(), AllocError> {
    let (mut loans, mut holds, mut places, mut transits) = (0usize, 0usize, 0usize, 0usize);
    for row in rows {
        let count = match row {
            OpeningRow::Loan { .. } => &mut loans,
            OpeningRow::Hold { .. } => &mut holds,
            OpeningRow::HoldShelf { .. } => &mut places,
            OpeningRow::HoldTransit { .. } | OpeningRow::Transit { .. } => &mut transits,
            OpeningRow::OpenShelf { .. } => continue,
        };
        *count = count.saturating_add(1);
    }
    let line = format!(in alloc;
        "carried over: {loans} loans, {holds} holds, {places} places on hold \
        shelves, {transits} transits\n"
    )?;
    out.extend_from_slice(line.as_bytes())
}

/// Adds which names are kept, a line for each.
pub(crate) fn push_kept(report: &mut Vec<u8>, kept: &[u8]) -> Result<(), AllocError> {
    let mut rest = kept;
    // There are no more lines than bytes.
    for _ in 0..kept.len() {
        if rest.is_empty() {
            break;
        }
        let next = first_line(rest);
        push_kept_line(report, next.line)?;
        rest = next.after;
    }
    Ok(())
}

/// Adds the name of a line that is kept.
fn push_kept_line(report: &mut Vec<u8>, line: &[u8]) -> Result<(), AllocError> {
    let mut values = Values::of(line);
    let (Some(letter), Some(name)) = (values.take(), values.take()) else {
        return Ok(());
    };
    for kind in KINDS {
        if is_letter(kind.letter(), letter) {
            report.extend_from_slice(b"kept: ")?;
            report.extend_from_slice(kind.one().as_bytes())?;
            report.push(b' ')?;
            report.extend_from_slice(name)?;
            report.push(b'\n')?;
        }
    }
    Ok(())
}
