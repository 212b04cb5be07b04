//! The hold shelf of a branch.
#![tactic(auto)]

mod boards;
mod places;

pub use crate::places::Places;
