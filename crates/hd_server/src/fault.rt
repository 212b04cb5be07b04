//! Why the service stops.
ghost use Rattle.std.specs.Prelude.{◌≡◌};
ghost use Rattle.hd_server.specs.declared.fault.ServerFault.TheVariants.{Replay, Serve};

use hd_replay::ReplayFault;
use hd_serve::ServeFault;
use thiserror::Error;

/// Why the service stops before its end, printed as one line on standard error; the exit status is 1.
#[derive(Clone, Copy, Debug, PartialEq, Eq, Error)]
pub enum ServerFault {
    /// A replay stopped.
    #[error("{0}")]
    Replay(ReplayFault),
    /// A server stopped.
    #[error("{0}")]
    Serve(ServeFault),
}

impl From<ReplayFault> for ServerFault {
    ghost from_gives = { λ why fault. fault ≡ Replay why };

    fn from(why: ReplayFault) -> ServerFault {
        ServerFault::Replay(why)
    }
}

impl From<ServeFault> for ServerFault {
    ghost from_gives = { λ why fault. fault ≡ Serve why };

    fn from(why: ServeFault) -> ServerFault {
        ServerFault::Serve(why)
    }
}
