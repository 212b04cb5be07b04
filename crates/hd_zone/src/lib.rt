//! Time zones: the offset of local time that a zone's file has at a moment, and a catalogue that uses it.
#![tactic(auto)]

mod fault;
mod heading;
mod moving;
mod reading;
mod zone;

pub use crate::fault::{ReadFault, ZoneFault};
pub use crate::reading::read_at;
pub use crate::zone::offset_at;
