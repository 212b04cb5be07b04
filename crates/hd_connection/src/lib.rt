//! The two ends of a connection: reading some bytes, and writing all of some. Each end says when a call can
//! fail.
#![tactic(auto)]

mod fallible;
mod input;
mod output;
mod patience;

pub use crate::fallible::Fallible;
pub use crate::input::{Input, ReadFailed, read_patiently};
pub use crate::output::{Output, WriteFailed, write_all, write_patiently};
