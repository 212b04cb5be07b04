//! Why a question has no answer.
ghost use Rattle.std.specs.Prelude.{◌≡◌};
ghost use Rattle.hd_door_client.specs.declared.fault.AskFault.TheVariants.{Memory};

use std::alloc::AllocError;

/// Why a question has no answer.
#[derive(Clone, Copy, Debug, PartialEq, Eq)]
pub enum AskFault {
    /// Nobody listens at the path.
    NoServer,
    /// The door is another user's.
    Forbidden,
    /// Who listens there can't be asked.
    Refused,
    /// What came isn't one whole answer.
    Unreadable,
    /// Out of memory.
    Memory,
}

impl From<AllocError> for AskFault {
    ghost from_gives = { λ _ fault. fault ≡ Memory };

    fn from(_: AllocError) -> AskFault {
        AskFault::Memory
    }
}
