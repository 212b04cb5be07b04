//! Faults that end the work on a connection.
ghost use Rattle.std.specs.Prelude.{◌≡◌};
ghost use Rattle.hd_attend.specs.declared.fault.AttendFault.TheVariants.{Read, Write, Ended};

use hd_connection::{ReadFailed, WriteFailed};
use hd_session::Ended;

/// Why a connection ends before the end of its input.
#[derive(Clone, Copy, Debug, PartialEq, Eq)]
pub enum AttendFault {
    /// A read failed.
    Read,
    /// A write failed, or took no byte.
    Write,
    /// The session has ended, for this reason.
    Ended(Ended),
}

impl From<ReadFailed> for AttendFault {
    ghost from_gives = { λ _ fault. fault ≡ Read };

    fn from(_: ReadFailed) -> AttendFault {
        AttendFault::Read
    }
}

impl From<WriteFailed> for AttendFault {
    ghost from_gives = { λ _ fault. fault ≡ Write };

    fn from(_: WriteFailed) -> AttendFault {
        AttendFault::Write
    }
}

impl From<Ended> for AttendFault {
    ghost from_gives = { λ why fault. fault ≡ Ended why };

    fn from(why: Ended) -> AttendFault {
        AttendFault::Ended(why)
    }
}
