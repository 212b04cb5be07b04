//! What an opening file says.

use hd_rules::OpeningRow;
use std::alloc::{Allocator, Global};

/// What an opening file says, by the numbers of a catalogue's names.
#[derive(Drop)]
pub struct Opening<A: Allocator = Global> {
    /// In what the desk differs from one with each copy at home and no holds, in the order of the lines: the
    /// row at an index is on the line whose number is the index plus two.
    pub rows: Vec<OpeningRow, A>,
    /// The last number that was given before.
    pub last: u32,
}
