//! Rising lists of places by number, and their union.
#![tactic(auto)]

mod laws;
mod lists;
mod row;
mod union;

pub use crate::laws::{unions_above_are_filters, unions_are_filters, unions_have_each_once};
pub use crate::lists::Lists;
pub use crate::union::Union;
