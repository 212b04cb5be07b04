//! Numbers as bytes.
ghost use Rattle.std.specs.Prelude.{OnOk};
ghost use Rattle.hd_turn_row.specs.Written.{IsWritten};

use std::alloc::{AllocError, Allocator};

/// Appends numbers, eight bytes each, the most significant first.
///
/// # Errors
/// Out of memory. Some of the numbers may have been appended then.
pub(crate) fn append<A: Allocator>(out: &mut Vec<u8, A>, numbers: &[u64]) -> Result<(), AllocError>
    ensures { OnOk result (IsWritten numbers.now out.old.items out.new.items) }
{
    for number in numbers {
        out.extend_from_slice(&number.to_be_bytes())?;
    }
    Ok(())
}
