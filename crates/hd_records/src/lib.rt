//! Records of the commands that survive: what each of them asked, found, changed and replied.
//!
//! A cancellation is decided from them (docs/desk-rules.md, "Clashes"): which command it takes back, which
//! later one first depends on it, and what the later ones found without it. No command is run again.
#![tactic(auto)]

mod all_slots;
mod index;
mod laws;
mod lists;
mod mending;
mod record;
mod record_view;
mod records;
mod slots;
mod survivors;
mod targets;
mod walking;

pub use crate::laws::walks_are_short;
pub use crate::record::{NewRecord, RecordRef};
pub use crate::records::Records;
pub use crate::survivors::Survivors;
pub use hd_catalogue::Catalogue;
pub use hd_footprint::{Count, Findings, Footprint, Meter};
pub use hd_rules::{Cancel, Change, Finding, Reply, Survivor, TerminalNo};
