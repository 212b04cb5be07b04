//! The journal of the hold desk: every turn, and the desk of the commands that were not cancelled.
//!
//! Sessions ask an `Office`; a hall has a `Keeper` under its lock. A journal alone is both. A `Look` reads a
//! journal between two turns, and makes none.
#![tactic(auto)]

mod alone;
mod ask;
mod deciding;
mod entry;
mod fault;
mod journal;
mod keeper;
mod laws;
mod line;
mod look;
mod office;
mod opening;
mod printing;
mod room;
mod survivor_run;
mod turn;
mod turn_log;

pub use crate::ask::OwnedAsk;
pub use crate::entry::Entry;
pub use crate::fault::{TurnFault, TurnFault as Fault, TurnFault as OfficeFault, WriteFault};
pub use crate::journal::Journal;
pub use crate::keeper::{CataloguedKeeper, Keeper, Turns};
pub use crate::laws::journals_grow;
pub use crate::look::Look;
pub use crate::office::Office;
pub use crate::opening::{open, share};
pub use crate::turn::{NewTurn, Turn, TurnRef};
pub use hd_desk::{Catalogue, Desk, OpenFault, RowFault};
pub use hd_records::{RecordRef, Survivors};
pub use hd_rules::{
    Ask, Asked, Cancel, Command, Refusal, Reply, SeatNo, Survivor, TerminalNo, TurnReply,
};
