//! A catalogue with another offset.
ghost use Rattle.std.specs.Prelude.{◌≡◌, IfErr, IfOk};
ghost use Rattle.hd_catalogue.specs.Contents.{no_rows};
ghost use Rattle.hd_catalogue.specs.Files.{lines_of};
ghost use Rattle.hd_zone.specs.Moved.{IsFaultOf, IsReadAt};

use crate::fault::ReadFault;
use crate::moving::{is_moved, moved};
use hd_catalogue::{CatFault, Catalogue, Cause};
use hd_date::OffsetMinutes;
use std::alloc::Global;

/// What a catalogue file says, with this offset in place of its own.
///
/// # Errors
/// The file is refused, or out of memory; `NotMoved` where what was written for it isn't read as that, which
/// no clause rules out.
pub fn read_at(alloc: Global, file: &[u8], offset: OffsetMinutes) -> Result<Catalogue, ReadFault>
    ensures read { IfOk result (IsReadAt (lines_of file.now) offset) }
    ensures rows { IfOk result (λ catalogue. catalogue.opening ≡ no_rows) }
    ensures refused { IfErr result (IsFaultOf (lines_of file.now)) }
{
    let catalogue = Catalogue::read(alloc, file)?;
    if catalogue.offset() == offset {
        return Ok(catalogue);
    }
    drop(catalogue);
    let Ok(text) = moved(alloc, file, offset) else {
        return Err(ReadFault::Memory);
    };
    let bytes = text.as_slice();
    if !is_moved(file, bytes) {
        return Err(ReadFault::NotMoved);
    }
    let catalogue = match Catalogue::read(alloc, bytes) {
        Ok(catalogue) => catalogue,
        Err(
            CatFault {
                cause: Cause::Memory,
                ..
            },
        ) => return Err(ReadFault::Memory),
        Err(_) => return Err(ReadFault::NotMoved),
    };
    if catalogue.offset() == offset {
        Ok(catalogue)
    } else {
        Err(ReadFault::NotMoved)
    }
}
