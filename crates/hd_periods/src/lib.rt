//! The periods of a library's folder: the names of their files, which of them is the last complete one, and
//! in which order a carry and a join change them.
#![tactic(auto)]

mod laws;
mod library;
mod name;
mod step;

pub use crate::laws::{a_stop_leaves_the_lines_or_all, a_stop_leaves_the_old_or_the_new};
pub use crate::library::{last_complete, library_of, missing};
pub use crate::name::{FileKind, FileName, PeriodFile};
pub use crate::step::{Step, carry_steps, join_steps};
