//! A turn of the journal as a row of names and texts, and back.
//!
//! A row names things as the catalogue does and not by number, so that people can read it, and so that a
//! catalogue that only grew reads it the same. Only what was asked is read back: a journal that takes it
//! again gives the reply. The row also has the outcome of the turn, to compare that reply with: a word, the
//! number of a command, and a column that says all of the reply in numbers.
#![tactic(auto)]

mod asked;
mod asked_columns;
mod fault;
mod laws;
mod outcome;
mod reading;
mod reply;
mod row;
mod terminals;
mod written;

pub use crate::asked_columns::AskedColumns;
pub use crate::fault::{Column, RowFault};
pub use crate::laws::{
    a_grown_catalogue_reads_the_same, a_row_is_of_one_message, replies_of_one_column_are_one,
};
pub use crate::outcome::OutcomeColumns;
pub use crate::row::{ask_of, row_of};
