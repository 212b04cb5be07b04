//! The catalogue of a library: its file, the numbers of its names, and what is known of each.
#![tactic(auto)]

mod catalogue;
mod cause;
mod facts;
mod finding;
mod header;
mod kinds;
mod law;
mod lines;
mod looking;
mod name;
mod names;
mod naming;
mod opening;
mod printing;
mod reading;
mod terminal;
mod text;
mod values;

pub use crate::catalogue::Catalogue;
pub use crate::cause::{CatFault, Cause};
pub use crate::law::{accepted_or_refused, an_extended_catalogue_grows, without_rows_is_fresh};
pub use crate::lines::{FirstLine, first_line};
pub use crate::opening::OpeningFault;
pub use crate::text::{is_letter, is_long, is_name, number};
pub use crate::values::Values;
pub use hd_date::OffsetMinutes;
pub use hd_rules::{BranchNo, CopyNo, OpeningRow, PatronNo, TerminalNo, TitleNo};
