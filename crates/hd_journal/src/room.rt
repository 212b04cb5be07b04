//! Room that is made first.

ghost use Rattle.std.specs.Prelude.{◌≡◌, ◌<◌, ℕ, None, OnOk, length, slice_index_or};

use std::alloc::{AllocError, Allocator};

/// Makes the list reach to an index, by places that are none. A place that is read there is none before and
/// afterwards.
pub(crate) fn reach<A: Allocator>(
    places: &mut Vec<Option<usize>, A>,
    index: usize,
) -> Result<(), AllocError>
    ensures same { (t : ℕ) → slice_index_or places.new.items t None ≡ slice_index_or places.old.items t None }
    ensures reached { OnOk result (index < length places.new.items) }
{
    while places.len() <= index {
        places.push(None)?;
    }
    Ok(())
}
