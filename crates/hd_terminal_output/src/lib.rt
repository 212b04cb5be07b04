//! What commands print on a terminal: lists, names, counted words, and how many copies are away.
#![tactic(auto)]

mod asking;
mod away;
mod counted;
mod fault;
mod listing;
mod names;
mod table;

pub use crate::away::Away;
pub use crate::counted::Counted;
pub use crate::fault::ListFault;
pub use crate::listing::{Pages, print_list};
pub use crate::names::{branch_name, copy_name, patron_name, terminal_name, title_name};
