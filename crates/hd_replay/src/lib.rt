//! `replay`: the messages of a file are answered as the server would.
#![tactic(auto)]

mod fault;
mod laws;
mod prefix;
mod printing;
mod replaying;
mod sessions;

pub use crate::fault::ReplayFault;
pub use crate::laws::replays_are_determined;
pub use crate::replaying::{replay, replay_in, replay_over};
