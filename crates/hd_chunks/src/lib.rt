//! A list in chunks: an item is put at any place, or taken, by moving only those of its own chunk.
#![tactic(auto)]

mod chunk;
mod chunk_list;
mod chunks;
mod marks;
mod place;

pub use crate::chunk::Chunk;
pub use crate::chunk_list::ChunkList;
pub use crate::marks::Marking;
pub use crate::place::Place;
