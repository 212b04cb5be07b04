//! How many copies of each title stand on open shelves, so that no desk walks a title's copies.
#![tactic(auto)]

mod home;
mod stock;

pub use crate::stock::Stock;
pub use hd_rules::{BranchNo, TitleNo};
