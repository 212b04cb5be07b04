//! The copies that join: each is on its way to its home.
ghost use Rattle.std.specs.Prelude.{◌≡◌, ◌-◌, ◌++◌, IfOk};
ghost use Rattle.hd_rules.specs.Growth.{arrivals};
ghost use Rattle.hd_catalogue.specs.Contents.{facts_of};

use hd_catalogue::{Catalogue, CopyNo, OpeningRow};
use std::alloc::{AllocError, Allocator};

/// The rows of an opening, and after them a row for each copy of a catalogue from a number on, which is on
/// its way to its home, for nobody.
///
/// # Errors
/// Out of memory.
pub fn with_arrivals<A: Allocator + Copy>(
    mut rows: Vec<OpeningRow, A>,
    catalogue: &Catalogue<A>,
    from: usize,
) -> Result<Vec<OpeningRow, A>, AllocError>
    ensures { let k = facts_of catalogue.now in
        IfOk result (λ told. told.items ≡ rows.items ++ arrivals k.home from (k.copies - from)) }
{
    for number in from..catalogue.copies() {
        let copy = CopyNo::new(number as u32).unwrap();
        let home = catalogue.home(copy);
        rows.push(OpeningRow::Transit {
            copy,
            from: home,
            to: home,
        })?;
    }
    Ok(rows)
}
