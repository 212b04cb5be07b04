//! What a command or a cancellation asks, part by part: what it does, with a word for it, and what it names.
//!
//! A journal's file has a column for each part, and a list of turns a member, both with these words.
#![tactic(auto)]

mod act;
mod parts;

pub use crate::act::{Act, Admits};
pub use crate::parts::{Parts, admits_of, cancel_parts, command_parts, copy_of, parts_of};
