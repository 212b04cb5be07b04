//! A meter of the work that commands and cancellations take.
#![tactic(auto)]

mod count;
mod meter;

pub use crate::count::Count;
pub use crate::meter::Meter;
