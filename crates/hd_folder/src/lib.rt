//! A library's folder: its numbered periods, the paths of their files, what is at the path of a journal, and
//! files that are written whole or by steps.
#![tactic(auto)]

mod changing;
mod fault;
mod folder;
mod paths;
mod presence;
mod writing;

pub use crate::changing::Changing;
pub use crate::fault::{FolderFault, cannot_write};
pub use crate::folder::last_period;
pub use crate::paths::{Paths, Period, file_path};
pub use crate::presence::{log_path, see_journal, see_no_file, see_no_other, see_nothing};
pub use crate::writing::{name_part, own_file, part_path, try_page, write_part, write_whole};
