//! The copies on their way between branches.
#![tactic(auto)]

mod bound;
mod transits;

pub use crate::bound::Bound;
pub use crate::transits::Transits;
pub use hd_rules::Transit;
