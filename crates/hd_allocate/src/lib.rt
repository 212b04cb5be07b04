//! Which hold a copy is for, and where it goes. Nothing here takes memory or copies a list.
#![tactic(auto)]

mod at_hand;
mod choosing;
mod facts;
mod informant;
mod settled;
mod settling;

pub use crate::at_hand::settle;
pub use crate::choosing::{choice, has_expired};
pub use crate::facts::CopyFacts;
pub use crate::informant::Informant;
pub use crate::settled::{Allotment, Settled};
pub use crate::settling::{allot_copy, settle_copy, tied_to, with_copy};
pub use hd_date::Day;
pub use hd_queue::QueueView;
pub use hd_rules::{BranchNo, CopyNo, CopyState, Hold};
