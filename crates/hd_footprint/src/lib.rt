//! What a command did: what it asked and found, what it changed, and whether its findings clash with changes.
#![tactic(auto)]

mod findings;
mod footprint;

pub use crate::findings::Findings;
pub use crate::footprint::Footprint;
pub use hd_clash::clashes;
pub use hd_meter::{Count, Meter};
pub use hd_rules::{Answer, Cell, Change, Finding, Noted, Question, Value};
