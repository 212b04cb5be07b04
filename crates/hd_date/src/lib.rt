//! Dates: texts of 18 bytes as stamps in local time, days by number, and their printing.
#![tactic(auto)]

mod calendar;
mod clock;
mod digits;
mod fault;
mod law;
mod local;
mod numbers;
mod offset;
mod printing;
mod reading;
mod stamp;
mod zone;

pub use crate::fault::DateFault;
pub use crate::law::{
    clocks_tell_one_stamp, days_are_dates, prints_show_their_stamp, texts_show_one_stamp,
};
pub use crate::offset::OffsetMinutes;
pub use crate::printing::print_due;
pub use crate::reading::{local_text, read};
pub use crate::stamp::Stamp18;
pub use hd_day::Day;
