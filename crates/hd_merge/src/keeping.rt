//! The lines of an old catalogue that are kept.
ghost use Rattle.std.specs.Prelude.{◌≡◌, IfOk};
ghost use Rattle.hd_catalogue.specs.Files.{lines_of};
ghost use Rattle.hd_joining.specs.Joining.{text_of};
ghost use Rattle.hd_merge.specs.Keeping.{kept};

use crate::needed::Needed;
use hd_catalogue::{Catalogue, first_line};
use hd_joining::{lacks, put_line};
use std::alloc::{AllocError, Allocator};

/// The lines of an old catalogue file that a new catalogue keeps, in the file's order, each with its end: those
/// whose names are needed, and that the new catalogue lacks.
///
/// # Errors
/// Out of memory.
pub fn kept_lines<A: Allocator + Copy>(
    alloc: A,
    old: &Catalogue<A>,
    new: &Catalogue<A>,
    needed: &Needed<A>,
    file: &[u8],
) -> Result<Vec<u8, A>, AllocError>
    ensures { IfOk result (λ text.
        text.items ≡ text_of (kept old.now new.now needed.now (lines_of file.now))) }
{
    let mut out = Vec::new(alloc);
    let mut rest = first_line(file).after;
    while !rest.is_empty() {
        let next = first_line(rest);
        if lacks(new, next.line) && needed.has_line(old, next.line) {
            put_line(&mut out, next.line)?;
        }
        rest = next.after;
    }
    Ok(out)
}
