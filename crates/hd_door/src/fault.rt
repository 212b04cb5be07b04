//! Why a door can't be opened, and why nothing is heard at one.
ghost use Rattle.std.specs.Prelude.{◌≡◌};
ghost use Rattle.hd_door.specs.declared.fault.DoorFault.TheVariants.{Refused};
ghost use Rattle.hd_door.specs.declared.fault.HearFault.TheVariants.{Memory, Read};

use hd_connection::ReadFailed;
use std::alloc::AllocError;
use std::io;

/// Why a door can't be opened.
#[derive(Debug, Drop)]
pub enum DoorFault {
    /// A server answers at the path.
    Live,
    /// A file is at the path, and it is no socket.
    OtherFile,
    /// The system refuses, for this reason.
    Refused(io::Error),
}

impl From<io::Error> for DoorFault {
    ghost from_gives = { λ why fault. fault ≡ Refused why };

    fn from(why: io::Error) -> DoorFault {
        DoorFault::Refused(why)
    }
}

/// Why a request isn't heard or has no reply.
#[derive(Clone, Copy, Debug, PartialEq, Eq)]
pub enum HearFault {
    /// A read failed.
    Read,
    /// The input ended before a whole head.
    Ended,
    /// Out of memory.
    Memory,
}

impl From<ReadFailed> for HearFault {
    ghost from_gives = { λ _ fault. fault ≡ Read };

    fn from(_: ReadFailed) -> HearFault {
        HearFault::Read
    }
}

impl From<AllocError> for HearFault {
    ghost from_gives = { λ _ fault. fault ≡ Memory };

    fn from(_: AllocError) -> HearFault {
        HearFault::Memory
    }
}
