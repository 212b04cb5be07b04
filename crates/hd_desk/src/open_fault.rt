//! Why a desk can't be opened.

ghost use Rattle.std.specs.Prelude.{◌≡◌};
ghost use Rattle.hd_desk.specs.declared.open_fault.OpenFault.TheVariants.{Memory};

use std::alloc::AllocError;

/// Why a row of an opening is refused after those before it (docs/desk-rules.md, "State").
#[derive(Clone, Copy, PartialEq, Eq, Debug)]
pub enum RowFault {
    /// It says what is so without it: it places a copy twice, or on the open shelf of its home, adds a second
    /// hold of a title and patron, gives a stamp of a title or a place of a branch twice, or gives a hold a
    /// second copy.
    Twice,
    /// It is of a copy that is for a patron who has no hold of its title.
    NoHold,
}

/// Why the desk that a catalogue describes can't be opened.
#[derive(Clone, Copy, PartialEq, Eq, Debug)]
pub enum OpenFault {
    /// Out of memory.
    Memory,
    /// One of the catalogue's opening rows is refused.
    Row {
        /// The place of the first that is refused, counted from 0.
        at: usize,
        /// Why.
        cause: RowFault,
    },
}

impl From<AllocError> for OpenFault {
    ghost from_gives = { λ _ fault. fault ≡ Memory };

    fn from(_: AllocError) -> OpenFault {
        OpenFault::Memory
    }
}
