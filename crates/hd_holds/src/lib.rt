//! The holds of all titles of a library.
#![tactic(auto)]

mod held_list;
mod held_lists;
mod held_title;
mod holds;

pub use crate::held_title::HeldTitle;
pub use crate::holds::Holds;
pub use hd_catalogue::Catalogue;
pub use hd_queue::QueueView;
pub use hd_rules::{Hold, PatronNo, TitleNo};
