//! Why a session ends.
use hd_exchange::TurnFault;

/// Why a session ended. It answers nothing from then on.
#[derive(Clone, Copy, PartialEq, Eq, Debug)]
pub enum Ended {
    /// A line has 1,025 bytes without a carriage return.
    TooLong,
    /// A line's turn wasn't made, for this fault of the office; or, as `Memory`, the room of its reply.
    Turn(TurnFault),
}
