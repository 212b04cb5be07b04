//! Values by number, in a table whose room is made before.
#![tactic(auto)]

mod table;

pub use crate::table::Table;
