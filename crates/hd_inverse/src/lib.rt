//! Taking changes of cells back.
#![tactic(auto)]

mod cells;
mod undoing;

pub use crate::cells::Cells;
pub use crate::undoing::undo;
pub use hd_meter::{Count, Meter};
pub use hd_rules::{Cell, Change, Value};
