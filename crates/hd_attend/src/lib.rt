//! Attending to one connection: its session is fed the bytes that come, at its office, and the replies are sent.
#![tactic(auto)]

mod announced;
mod attending;
mod fault;
mod surroundings;

pub use crate::attending::attend;
pub use crate::fault::AttendFault;
pub use crate::surroundings::Surroundings;
pub use hd_session::{Answered, NoLog, SessionLog};
