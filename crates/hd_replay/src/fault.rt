//! Why a replay stops.
ghost use Rattle.std.specs.Prelude.{◌≡◌};
ghost use Rattle.hd_replay.specs.declared.fault.ReplayFault.TheVariants.{Memory, Read, Write};

use hd_catalogue::CatFault;
use hd_connection::{ReadFailed, WriteFailed};
use std::alloc::{AllocError, AllocFailed};
use thiserror::Error;

/// Why a replay stops before its end, printed as one line on standard error; the exit status is 1
/// (docs/protocol.md, "The program replay").
#[derive(Clone, Copy, Debug, PartialEq, Eq, Error)]
pub enum ReplayFault {
    /// The catalogue file is refused, by this fault.
    #[error("catalogue {0}")]
    Catalogue(CatFault),
    /// The stamp that is to be the present can't be read, or lies outside the years 0000 to 9999 in local
    /// time.
    #[error("bad --now")]
    BadNow,
    /// The input line with this number, counted from 1, doesn't begin with a session's number and one blank.
    #[error("input line {line}: no session")]
    NoSession { line: u64 },
    /// The input has more than 16,777,216 bytes.
    #[error("input too long")]
    InputTooLong,
    /// A read failed.
    #[error("cannot read")]
    Read,
    /// A write failed, or took no byte.
    #[error("cannot write")]
    Write,
    /// Out of memory.
    #[error("no memory")]
    Memory,
}

impl From<AllocError> for ReplayFault {
    ghost from_gives = { λ _ fault. fault ≡ Memory };

    fn from(_: AllocError) -> ReplayFault {
        ReplayFault::Memory
    }
}

impl<T: Drop> From<AllocFailed<T>> for ReplayFault {
    ghost from_gives = { λ _ fault. fault ≡ Memory };

    fn from(_: AllocFailed<T>) -> ReplayFault {
        ReplayFault::Memory
    }
}

impl From<ReadFailed> for ReplayFault {
    ghost from_gives = { λ _ fault. fault ≡ Read };

    fn from(_: ReadFailed) -> ReplayFault {
        ReplayFault::Read
    }
}

impl From<WriteFailed> for ReplayFault {
    ghost from_gives = { λ _ fault. fault ≡ Write };

    fn from(_: WriteFailed) -> ReplayFault {
        ReplayFault::Write
    }
}
