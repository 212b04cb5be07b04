//! Why a text is no stamp.

/// Why a text is read as no stamp: the first of these that applies, in this order.
///
/// The rules are those of docs/protocol.md, "Dates".
#[derive(Clone, Copy, Debug, PartialEq, Eq)]
pub enum DateFault {
    /// It isn't 18 bytes long.
    Length,
    /// A byte outside the zone is no decimal digit.
    Digits,
    /// The zone is neither four blanks (local time) nor three blanks and a `Z` (universal time).
    Zone,
    /// The calendar has no such day, or the hour is above 23, the minute or the second above 59.
    Calendar,
    /// The moment, made local, lies outside the years 0000 to 9999.
    Range,
}
