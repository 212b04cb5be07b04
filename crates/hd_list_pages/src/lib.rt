//! What a library shows of itself: pages of its journal, by the catalogue's names, as JSON.
//!
//! Each answer is of one look at the journal. The look takes down numbers; names are put to them and written
//! outside of the hall's lock.
#![tactic(auto)]

mod asked;
mod columns;
mod hall_view;
mod journal_page;
mod laws;
mod looking_up;
mod names;
mod pages;
mod part;
mod seeing;
mod standing;
mod state;
mod state_reader;
mod tallied;
mod tally;
mod words;
mod writing;

pub use crate::hall_view::HallView;
pub use crate::journal_page::write_page_of;
pub use crate::laws::repeats_are_answered_again;
pub use crate::tallied::MOST_TALLIED;
pub use crate::words::Heading;
pub use hd_http::{Outcome, State, View, ViewFault};
