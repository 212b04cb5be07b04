//! The lines that join.
ghost use Rattle.std.specs.Prelude.{◌≡◌, ◌++◌, ◌∷◌, [], IfOk, OnOk};
ghost use Rattle.hd_catalogue.specs.Files.{lines_of};
ghost use Rattle.hd_joining.specs.Joining.{joining_lines, text_of};

use crate::lacking::lacks;
use hd_catalogue::{Catalogue, first_line};
use std::alloc::{AllocError, Allocator};

/// The lines of a catalogue file whose names a catalogue lacks, in the file's order, each with its end: what
/// joins it. The first line is the file's own, and is none of them.
///
/// # Errors
/// Out of memory.
pub fn joining<A: Allocator + Copy>(
    alloc: A,
    old: &Catalogue<A>,
    file: &[u8],
) -> Result<Vec<u8, A>, AllocError>
    ensures { IfOk result (λ text. text.items ≡ text_of (joining_lines old.now (lines_of file.now))) }
{
    let mut out = Vec::new(alloc);
    let mut rest = first_line(file).after;
    while !rest.is_empty() {
        let next = first_line(rest);
        if lacks(old, next.line) {
            put_line(&mut out, next.line)?;
        }
        rest = next.after;
    }
    Ok(out)
}

/// Appends a line and its end.
///
/// # Errors
/// Out of memory.
pub fn put_line<A: Allocator>(out: &mut Vec<u8, A>, line: &[u8]) -> Result<(), AllocError>
    ensures { OnOk result (out.new.items ≡ out.old.items ++ line.now ++ 10 ∷ []) }
{
    out.extend_from_slice(line)?;
    out.push(b'\n')?;
    Ok(())
}
