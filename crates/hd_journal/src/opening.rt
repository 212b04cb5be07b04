//! A journal over a library's catalogue, before its first turn.
ghost use Rattle.std.specs.Prelude.{◌≡◌, [], IfErr, IfOk};
ghost use Rattle.std.specs.Arc.{arc_value};
ghost use Rattle.hd_desk.specs.declared.open_fault.OpenFault.TheVariants.{Memory};
ghost use Rattle.hd_desk.specs.Rows.{IsRefused};
ghost use Rattle.hd_journal.specs.Books.{IsLegalBook};

use crate::journal::Journal;
use hd_catalogue::Catalogue;
use hd_desk::{Desk, Meter, OpenFault};
use std::alloc::{AllocError, Allocator, Global};
use std::sync::Arc;

/// The catalogue, shared by the desk and its other readers.
///
/// # Errors
/// Out of memory.
pub fn share<A: Allocator>(
    alloc: A,
    catalogue: Catalogue<A>,
) -> Result<Arc<Catalogue<A>, A>, AllocError>
    ensures { IfOk result (λ shared. arc_value shared ≡ catalogue) }
{
    Ok(Arc::new(alloc, catalogue)?)
}

/// A journal without turns, over the desk that the catalogue's opening rows give. `inline` is never asked for
/// memory: it comes with lists of at most four, which are kept in place.
///
/// # Errors
/// `Row` for the first row that is refused after those before it, and why; `Memory`. Over a catalogue without
/// rows it can only be `Memory`.
pub fn open<A: Allocator + Copy>(
    alloc: A,
    inline: Global,
    meter: Meter,
    catalogue: Catalogue<A>,
) -> Result<Journal<A>, OpenFault>
    ensures turns { IfOk result (λ journal. journal.turns ≡ []) }
    ensures contents { IfOk result (λ journal. journal.contents ≡ catalogue) }
    ensures legal { IfOk result (λ journal. IsLegalBook journal.contents journal.turns) }
    ensures refused { IfErr result (IsRefused catalogue) }
    ensures fresh { catalogue.opening.rows ≡ [] → IfErr result (λ fault. fault ≡ Memory) }
{
    let desk = Desk::open(alloc, share(alloc, catalogue)?)?;
    Ok(Journal::new(alloc, inline, desk, meter))
}
