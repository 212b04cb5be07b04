//! A place in a list.

/// A place in a list: that of an item, or behind the last item of a chunk.
#[derive(Clone, Copy, PartialEq, Eq, Debug)]
pub struct Place {
    /// The number of its chunk, from 0.
    pub chunk: usize,
    /// How many items of the chunk stand before it.
    pub offset: usize,
}
