//! The journal of a library, in its file: begun, opened with each of its turns taken again, and ended.
#![tactic(auto)]

mod beginning;
mod ending;
mod fault;
mod keeping;
mod retaking;

pub use crate::beginning::{begin_at, fill_at, make_at};
pub use crate::ending::{end_journal, end_kept};
pub use crate::fault::LibraryJournalFault;
pub use crate::keeping::{Keeping, KeptJournal, open_kept, open_over};
