//! Days, by their number (docs/protocol.md).
#![tactic(auto)]

mod day;

pub use crate::day::{DAYS, Day};
