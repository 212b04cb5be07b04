//! What is odd about a file that is accepted.
ghost use Rattle.std.specs.Prelude.{◌≡◌, IfOk, IfSome, is_some, map, string_bytes, take, true};
ghost use Rattle.std.specs.Str.{is_utf8};
ghost use Rattle.hd_catalogue.specs.Files.{lines_of};
ghost use Rattle.hd_diagnosis.specs.Odd.{begins_with, ends_with, has_odd, is_odd, is_quoted, odd_lines};
ghost use Rattle.hd_diagnosis.specs.Printable.{is_line};

use crate::diagnosing::MOST_TOLD;
use crate::printable::{printable, quoted};
use hd_catalogue::{Values, first_line};
use std::alloc::{AllocError, Global};

/// A value that the catalogue takes, and that may be a mistake.
#[derive(Debug, Drop)]
pub struct Warning {
    /// The line, the first being 1.
    pub line: usize,
    /// Which value it is and what is odd about it, on one line of printable characters.
    pub words: String,
    ghost one_line: { is_line (string_bytes words) ≡ true },
}

/// What is odd about the values of a file: that they are in quotes, have blanks before or after them, or
/// aren't UTF-8. The first [`MOST_TOLD`] lines with such a value are reported, each once.
///
/// # Errors
/// Out of memory.
pub fn warn(alloc: Global, bytes: &[u8]) -> Result<Vec<Warning>, AllocError>
    ensures { IfOk result (λ told.
        map (λ warning. warning.line) told.items ≡ take MOST_TOLD (odd_lines 1 (lines_of bytes.now))) }
{
    let mut told = Vec::new(alloc);
    let first = first_line(bytes);
    if let Some(warning) = warning_of(alloc, 1, first.line)? {
        told.push(warning)?;
    }
    let mut rest = first.after;
    let mut number = 1usize;
    while !rest.is_empty() {
        if told.len() >= MOST_TOLD {
            return Ok(told);
        }
        let next = first_line(rest);
        number += 1;
        if let Some(warning) = warning_of(alloc, number, next.line)? {
            told.push(warning)?;
        }
        rest = next.after;
    }
    Ok(told)
}

/// What is odd about the first odd value of a line with this number, if it has one.
///
/// # Errors
/// Out of memory.
fn warning_of(alloc: Global, line: usize, text: &[u8]) -> Result<Option<Warning>, AllocError>
    ensures some { IfOk result (λ warning. is_some warning ≡ has_odd text.now) }
    ensures line { IfOk result (λ warning. IfSome warning (λ w. w.line ≡ line)) }
{
    let mut values = Values::of(text);
    let mut number = 1usize;
    while let Some(value) = values.take() {
        if let Some(oddity) = oddity_of(value) {
            let shown = quoted(alloc, value)?;
            let words = format!(in alloc; "{shown} (value {number}) {oddity}")?;
            let words = printable(alloc, words.as_bytes())?;
            return Ok(Some(Warning { line, words }));
        }
        number = number.saturating_add(1);
    }
    Ok(None)
}

/// What is odd about a value.
fn oddity_of(value: &[u8]) -> Option<&'static str>
    ensures { is_some result ≡ is_odd value.now }
{
    if !is_text(value) {
        Some("isn't UTF-8, as the names in a journal's file are")
    } else if is_quoted(value) {
        Some("stands in quotes, which are part of it")
    } else if begins_with(b' ', value) {
        Some("has a blank before it")
    } else if ends_with(b' ', value) {
        Some("has a blank behind it")
    } else {
        None
    }
}

/// Whether a value is UTF-8.
fn is_text(value: &[u8]) -> bool
    ensures { result ≡ is_utf8 value.now }
{
    match str::from_utf8(value) {
        Ok(_) => true,
        Err(_) => false,
    }
}

/// Whether a value is in quotes.
fn is_quoted(value: &[u8]) -> bool
    ensures { result ≡ is_quoted value.now }
{
    value.len() >= 2 && begins_with(b'"', value) && ends_with(b'"', value)
}

/// Whether a value begins with this byte.
fn begins_with(byte: u8, value: &[u8]) -> bool
    ensures { result ≡ begins_with byte value.now }
{
    !value.is_empty() && value[0] == byte
}

/// Whether a value ends with this byte.
fn ends_with(byte: u8, value: &[u8]) -> bool
    ensures { result ≡ ends_with byte value.now }
{
    !value.is_empty() && value[value.len() - 1] == byte
}
