//! Sessions: one terminal's stream of lines, and the replies to them.
#![tactic(auto)]

mod closing;
mod ended;
mod laws;
pub mod script;
mod session;
mod session_log;
mod state;

pub use crate::ended::Ended;
pub use crate::laws::{
    logins_are_known_by_their_reply, no_session_ends_by_another_fault,
    only_patron_messages_look_in_sessions, pieces_are_one, pieces_at_one_present,
    scripts_are_determined, sessions_hear_their_streams,
};
pub use crate::session::Session;
pub use crate::session_log::{Answered, NoLog, SessionLog};
pub use hd_exchange::{
    Ask, Extensions, Login, Office, OfficeFault, Patrons, Profile, Turn, TurnFault,
};
