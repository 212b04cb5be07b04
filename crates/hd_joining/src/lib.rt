//! Names that join a library: which lines of a whole catalogue file these are, and the catalogue that has
//! grown by them.
#![tactic(auto)]

mod arriving;
mod lacking;
mod law;
mod text;
mod writing;

pub use crate::arriving::with_arrivals;
pub use crate::lacking::lacks;
pub use crate::law::what_joined_extends;
pub use crate::text::grown_text;
pub use crate::writing::{joining, put_line};
