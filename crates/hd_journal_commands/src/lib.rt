//! The commands over a library's journal that isn't served: `carry`, and `journal begin`, `check`, `join`,
//! `show` and `views`.
#![tactic(auto)]

mod beginning;
mod carried;
mod carrying;
mod counted;
mod fault;
mod joining;
mod journal_checking;
mod kind;
mod showing;
mod staying;
mod stepping;
mod views;
mod written_off;

pub use crate::beginning::begin_journal;
pub use crate::carrying::carry_over;
pub use crate::fault::JournalCommandFault;
pub use crate::joining::join_library;
pub use crate::journal_checking::check_journal;
pub use crate::showing::show_journal;
pub use crate::views::print_views;
