//! What a meter counts.

/// A kind of work.
#[derive(Clone, Copy, PartialEq, Eq, Debug)]
pub enum Count {
    /// A command was carried out at a desk.
    Step,
    /// A cell of a desk was written.
    Written,
    /// A record was looked at.
    Look,
    /// An answer was compared with another.
    Compared,
}
