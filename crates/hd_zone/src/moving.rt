//! The text of a catalogue file, with another offset.
ghost use Rattle.std.specs.Prelude.{IsTrue};
ghost use Rattle.hd_catalogue.specs.Files.{lines_of};
ghost use Rattle.hd_zone.specs.Moved.{IsMoved};

use crate::heading::{heading_of, says_same};
use hd_catalogue::first_line;
use hd_date::OffsetMinutes;
use itoa::Buffer;
use std::alloc::{AllocError, Global};

/// A catalogue file with this offset in its first line, if it has one. `is_moved` sees whether it is.
pub(crate) fn moved(
    alloc: Global,
    file: &[u8],
    offset: OffsetMinutes,
) -> Result<Vec<u8>, AllocError> {
    let mut out = Vec::new(alloc);
    let first = first_line(file);
    if let Some(heading) = heading_of(first.line) {
        let mut buffer = Buffer::new();
        out.extend_from_slice(b"H|")?;
        out.extend_from_slice(heading.version)?;
        out.push(b'|')?;
        out.extend_from_slice(heading.institution)?;
        out.push(b'|')?;
        out.extend_from_slice(buffer.format(offset.minutes()).as_bytes())?;
        out.push(b'|')?;
        out.extend_from_slice(heading.limit)?;
        out.push(b'\n')?;
        out.extend_from_slice(first.after)?;
    }
    Ok(out)
}

/// Whether the lines of a text are another's, but for the offset in the first.
pub(crate) fn is_moved(file: &[u8], moved: &[u8]) -> bool
    ensures { IsTrue result → IsMoved (lines_of file.now) (lines_of moved.now) }
{
    let one = first_line(file);
    let other = first_line(moved);
    says_same(one.line, other.line) && one.after == other.after
}
