//! The lists that a library shows: the name of each, its path at the door, what it is asked by, its headings;
//! how a question is written in a target, and how it is read there.
#![tactic(auto)]

mod asking;
mod cutting;
mod hearing;
mod laws;
mod list;
mod number;
mod query;
mod question;

pub use crate::asking::{ESCAPED, FIELDS, request_of};
pub use crate::cutting::cut;
pub use crate::hearing::hear;
pub use crate::laws::{each_list_is_called, requests_are_heard, what_is_asked_is_heard};
pub use crate::list::{KeyKind, Kind, LISTS, Listing, Row};
pub use crate::query::MOST_TURNS;
pub use crate::question::{Heard, Key, Question};
