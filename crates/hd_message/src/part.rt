//! The parts of a reply.
use hd_rules::Refusal;

/// AH without a due day.
pub(crate) const NO_DUE_DAY: Part<'static> = Part::Field(*b"AH", b"");

/// A part of a reply's text.
#[derive(Clone, Copy)]
pub(crate) enum Part<'a> {
    /// The bytes as they are.
    Text(&'a [u8]),
    /// `Y` or `N`.
    YesNo(bool),
    /// A field: its identifier, its value and a bar.
    Field([u8; 2], &'a [u8]),
    /// A field that is left out where it has no value.
    Optional([u8; 2], Option<&'a [u8]>),
    /// AH with a due day as it is printed.
    Due([u8; 18]),
    /// BW with an expiry day as it is printed, left out where there is none.
    Expiry(Option<[u8; 18]>),
    /// BR with a hold's position in its title's queue.
    Position(u64),
    /// CF with a number of holds.
    Holds(u64),
    /// CL with a place on a hold shelf.
    Place(u32),
    /// CL with the branch to which a copy goes.
    Bound(&'a [u8]),
    /// AF with the number of what was cancelled.
    Cancelled(u64),
    /// AF with the text of a refusal.
    Refused(Refusal),
    /// A count in four digits, 9999 where it is more.
    Count(u64),
    /// CB with how many loans a patron may have, printed as a count.
    Limit(u32),
    /// AF with a place on a hold shelf.
    OnHoldShelf(u32),
}
