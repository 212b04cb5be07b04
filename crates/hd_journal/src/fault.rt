//! Why a turn isn't made: by a journal, an office that sessions ask, a hall, or whatever keeps a journal.

ghost use Rattle.std.specs.Prelude.{◌≡◌};
ghost use Rattle.hd_journal.specs.declared.fault.TurnFault.TheVariants.{Memory, Unwritten};

use std::alloc::AllocError;

/// Why a turn isn't made: by a journal, an office, a hall, or whatever keeps a journal. No turn more is
/// answered then.
///
/// Which of these can come each says of itself: a journal alone gives `Memory`, and nothing else.
#[derive(Clone, Copy, PartialEq, Eq, Debug)]
pub enum TurnFault {
    /// Out of memory.
    Memory,
    /// The journal, of `front` turns, lacks the last turn that this side saw: it is another journal.
    Estranged { front: usize },
    /// The turn, or an earlier one, couldn't be written to where the turns outlive a stop. Whoever begins
    /// again there may find this one all the same, though nobody was answered.
    Unwritten(WriteFault),
}

impl From<AllocError> for TurnFault {
    ghost from_gives = { λ _ fault. fault ≡ Memory };

    fn from(_: AllocError) -> TurnFault {
        TurnFault::Memory
    }
}

impl From<WriteFault> for TurnFault {
    ghost from_gives = { λ why fault. fault ≡ Unwritten why };

    fn from(why: WriteFault) -> TurnFault {
        TurnFault::Unwritten(why)
    }
}

/// Why a turn couldn't be written to where turns outlive a stop. It is printed in the operator's words.
#[derive(Clone, Copy, PartialEq, Eq, Debug)]
pub enum WriteFault {
    /// Out of memory while its row was made or written.
    Memory,
    /// The disk is full.
    DiskFull,
    /// The system refused the write.
    Refused,
}
