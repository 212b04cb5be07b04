//! The words of names that aren't known.

use crate::defined::Defined;
use crate::kind::Kind;
use crate::known::Known;
use crate::near::nearest;
use crate::printable::quoted;
use crate::values::value_at;
use hd_catalogue::first_line;
use std::alloc::{AllocError, Global};

/// What follows a line.
#[derive(Clone, Copy)]
pub(crate) struct Behind<'a> {
    /// The number of the line.
    pub(crate) line: usize,
    /// The text after it.
    pub(crate) text: &'a [u8],
}

/// A value that names something.
#[derive(Clone, Copy)]
struct Naming<'a> {
    /// Its number, from 1.
    number: usize,
    /// What its column is called.
    word: &'static str,
    name: &'a [u8],
    /// The kind of what it names.
    kind: Kind,
}

/// The words of a line that names something that isn't known.
pub(crate) fn words_of_unknown(
    alloc: Global,
    kind: Kind,
    known: &Known,
    line: &[u8],
    behind: Behind<'_>,
) -> Result<String, AllocError> {
    let Naming {
        number,
        word,
        name,
        kind,
    } = unknown_of(kind, known, line);
    let shown = quoted(alloc, name)?;
    if let Some(later) = line_of_definer(kind, name, behind) {
        return format!(in alloc;
            "{word} {shown} (value {number}) is defined further down, in line {later}: move that line up"
        );
    }
    let hint = hint_of(alloc, known.names_of(kind), name)?;
    format!(in alloc; "{word} {shown} (value {number}) isn't defined{hint}")
}

/// The value of a line that names something that isn't known: of a copy's the title, else the branch.
fn unknown_of<'a>(kind: Kind, known: &Known, line: &'a [u8]) -> Naming<'a> {
    let third = value_at(line, 3).unwrap_or(b"");
    let fourth = value_at(line, 4).unwrap_or(b"");
    if kind == Kind::Copy && known.titles.line_of(third).is_none() {
        return Naming {
            number: 3,
            word: "title",
            name: third,
            kind: Kind::Title,
        };
    }
    Naming {
        number: 4,
        word: if kind == Kind::Copy {
            "home branch"
        } else {
            "branch"
        },
        name: fourth,
        kind: Kind::Branch,
    }
}

/// The first line after a line that defines a name of a kind.
fn line_of_definer(kind: Kind, name: &[u8], behind: Behind<'_>) -> Option<usize> {
    let mut text = behind.text;
    let mut number = behind.line;
    while !text.is_empty() {
        let next = first_line(text);
        number = number.saturating_add(1);
        if Kind::of(value_at(next.line, 1)?) == Some(kind) && value_at(next.line, 2) == Some(name) {
            return Some(number);
        }
        text = next.after;
    }
    None
}

/// The name that may have been meant, as a question.
fn hint_of(alloc: Global, names: &Defined, name: &[u8]) -> Result<String, AllocError> {
    match nearest(alloc, names, name)? {
        Some(near) => {
            let shown = quoted(alloc, near)?;
            let hint = match near {
                [b' ', ..] => ", with a blank before it",
                [.., b' '] => ", with a blank behind it",
                _ => "",
            };
            format!(in alloc; "; did you mean {shown}{hint}?")
        }
        None => Ok(String::new(alloc)),
    }
}
