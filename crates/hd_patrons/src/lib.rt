//! The patrons' file: passwords, languages and names of patrons, for kiosks (docs/patrons.md).
//!
//! It adds to the catalogue and changes nothing that the rules of the desk see. A name and a language are
//! in replies to kiosks and sorters alone, and a password is in none; no text of the file is part of a fault.
#![tactic(auto)]

mod check;
mod fault;
mod laws;
mod line;
mod patrons;
mod printing;
mod reading;
mod table;

pub use crate::check::PasswordCheck;
pub use crate::fault::PatronsFault;
pub use crate::laws::accepted_or_refused;
pub use crate::patrons::Patrons;
pub use hd_catalogue::{Catalogue, Cause};
pub use hd_rules::PatronNo;
