//! The texts of days: year, month and day of the month, as in `2026-11-25` (ISO 8601).
#![tactic(auto)]

mod laws;
mod text;

pub use crate::laws::texts_are_of_one_day;
pub use crate::text::{day_said, day_text};
pub use hd_date::Day;
