//! Why a server stops.
ghost use Rattle.std.specs.Prelude.{◌≡◌};
ghost use Rattle.hd_serve.specs.declared.fault.ServeFault.TheVariants.{Memory};

use hd_journal::WriteFault;
use std::alloc::AllocError;
use thiserror::Error;

/// Why a server stops before its end, printed as one line on standard error; the exit status is 1.
#[derive(Clone, Copy, Debug, PartialEq, Eq, Error)]
pub enum ServeFault {
    /// The address can't be listened at, or a connection can't be accepted.
    #[error("cannot listen")]
    CannotListen,
    /// The journal isn't the one that the receipts of the connections are of.
    #[error("not closed")]
    NotClosed,
    /// The keeper of the journal failed to write a turn, for this reason, and every connection was ended. The
    /// turns that were answered stay written.
    #[error("the journal can't be written: {0}")]
    Unwritten(WriteFault),
    /// No thread could be had at the start. Nothing was served.
    #[error("no thread")]
    NoThread,
    /// Out of memory at the start. Nothing was served.
    #[error("no memory")]
    Memory,
}

impl From<AllocError> for ServeFault {
    ghost from_gives = { λ _ fault. fault ≡ Memory };

    fn from(_: AllocError) -> ServeFault {
        ServeFault::Memory
    }
}
