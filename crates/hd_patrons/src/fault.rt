//! Why a patrons' file is refused.

use hd_catalogue::Cause;

/// The first bad line, from 1, and its cause (docs/patrons.md). It has none of the line's text.
#[derive(Clone, Copy, PartialEq, Eq, Debug)]
pub struct PatronsFault {
    /// The number of the line, the first being 1.
    pub line: usize,
    /// Why the line is refused: the first cause that applies.
    pub cause: Cause,
}
