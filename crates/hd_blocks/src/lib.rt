//! A list in blocks that never move.
#![tactic(auto)]

mod block;
mod block_list;

pub use crate::block_list::BlockList;
