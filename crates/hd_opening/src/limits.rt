//! The limits of an opening file.

/// The highest place of a hold shelf: one more than there can be copies.
pub const MOST_PLACES: u32 = 1_000_001;
