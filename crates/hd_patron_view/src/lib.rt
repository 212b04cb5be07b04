//! What is reported of a patron: the state of their loans and holds, and the items of a list of them.
//!
//! Each is read from one desk. Nothing is changed by it, and it takes no memory (docs/desk-rules.md, "What a
//! patron has").
#![tactic(auto)]

mod cut;
mod having;
mod pages;
mod views;

pub use crate::having::{held, lent};
pub use crate::pages::page;
pub use crate::views::view;
pub use hd_desk::{Desk, HeldTitle, LentCopies};
pub use hd_rules::{Borrowing, ListItem, PatronView, Summary, Wanted};
