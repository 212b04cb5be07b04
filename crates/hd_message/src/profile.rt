//! Which extensions of the standard profile are on.

/// Which extensions of the standard profile a server has on; all are off by default.
#[derive(Clone, Copy, Debug, PartialEq, Eq)]
pub struct Profile {
    /// Patron messages: 23, 63, 35, 01, 37 and 65 are read.
    pub patron_messages: bool,
    /// Sorter fields: the replies to checkins and to questions about copies say for whom a copy is.
    pub sorter_fields: bool,
}
