//! The hold desk: where the copies are, the holds of each title, and the commands.
//!
//! A command is carried out in two halves. First an [`inquiry`] asks the desk, question by question, as
//! docs/desk-rules.md has it, and ends in a refusal or in changes and a reply; nothing is changed by it, and
//! it takes no memory. Then the desk makes room for the changes and makes them.
#![tactic(auto)]

mod accepted;
mod answering;
mod applying;
mod cells;
mod desk;
mod done;
mod facts;
mod holding;
mod inquiry;
mod judging;
mod laws;
mod lending;
mod offline;
mod open_fault;
mod refused;
mod returning;
mod rows;
mod settling;

pub use crate::desk::Desk;
pub use crate::done::Done;
pub use crate::open_fault::{OpenFault, RowFault};
pub use crate::refused::Refused;
pub use hd_catalogue::Catalogue;
pub use hd_copies::LentCopies;
pub use hd_footprint::{Count, Findings, Footprint, Meter};
pub use hd_holds::HeldTitle;
pub use hd_rules::{
    Action, Answer, Change, Command, Finding, Hold, ItemView, Question, Refusal, Reply,
};
