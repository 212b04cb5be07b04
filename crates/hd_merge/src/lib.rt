//! The catalogue of a next period: a new one and, after its lines, those of the old one that are still needed.
//!
//! A carry needs each name at which something is on loan, kept, on its way or held. Where the new catalogue lacks
//! such a name, the old catalogue's line of it may be kept (docs/daily.md).
#![tactic(auto)]

mod keeping;
mod kind;
mod needed;

pub use crate::keeping::kept_lines;
pub use crate::kind::NameKind;
pub use crate::needed::Needed;
