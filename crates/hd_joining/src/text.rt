//! The text of a catalogue that has grown.
ghost use Rattle.std.specs.Prelude.{◌≡◌, ◌++◌, ◌↔◌, IfOk, IsTrue};
ghost use Rattle.std.specs.Str.Lines.{lines};
ghost use Rattle.hd_catalogue.specs.Files.{lines_of};
ghost use Rattle.hd_joining.specs.Joining.{IsEnded, IsWhole};

use std::alloc::{AllocError, Allocator};

/// Whether the last line of a file has its end.
fn is_ended(file: &[u8]) -> bool
    ensures { IsTrue result ↔ IsEnded file.now }
{
    !file.is_empty() && file[file.len() - 1] == b'\n'
}

/// The text of a catalogue file and, after its own lines, the lines that joined it. Where the last line of
/// the file has no end it gets one.
///
/// # Errors
/// Out of memory.
pub fn grown_text<A: Allocator + Copy>(
    alloc: A,
    file: &[u8],
    joined: &[u8],
) -> Result<Vec<u8, A>, AllocError>
    ensures { IsWhole file.now → IfOk result (λ text.
        lines_of text.items ≡ lines_of file.now ++ lines joined.now) }
{
    let mut text = Vec::from_slice(alloc, file)?;
    if !is_ended(file) {
        text.push(b'\n')?;
    }
    text.extend_from_slice(joined)?;
    Ok(text)
}
