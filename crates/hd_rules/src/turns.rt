//! What a turn is asked.

use crate::commands::{Cancel, Command};
use crate::numbers::CopyNo;

/// What a terminal asks in one turn.
#[derive(Clone, Copy, PartialEq, Eq, Debug)]
pub enum Asked {
    /// A command.
    Command(Command),
    /// A cancellation.
    Cancel(Cancel),
    /// A query of a copy.
    Item(CopyNo),
}
