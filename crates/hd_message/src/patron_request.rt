//! Patron messages: what a kiosk asks about a patron.
use crate::patron_kind::PatronKind;
use hd_rules::Summary;

/// A question whether a patron may borrow (23). Its values are slices of the body, as are those of the
/// messages below.
#[derive(Clone, Copy)]
pub struct PatronStatusRequest<'a> {
    /// The 3 bytes of the language.
    pub language: &'a [u8],
    /// The 18 bytes of the transaction date.
    pub date: &'a [u8],
    /// AA, the patron identifier; it may be empty.
    pub patron: &'a [u8],
    /// AD, the patron password; nothing where it is absent or empty.
    pub password: Option<&'a [u8]>,
}

/// A question what a patron has (63).
#[derive(Clone, Copy)]
pub struct PatronInformationRequest<'a> {
    /// The 3 bytes of the language.
    pub language: &'a [u8],
    /// The 18 bytes of the transaction date.
    pub date: &'a [u8],
    /// The list that is wanted, by the first `Y` of the summary: position 0 the hold items, 1 the overdue
    /// items, 2 the charged items, 5 the unavailable holds, 3 and 4 an empty list; nothing where there is
    /// none of these.
    pub summary: Option<Summary>,
    /// AA, the patron identifier; it may be empty.
    pub patron: &'a [u8],
    /// AD, the patron password; nothing where it is absent or empty.
    pub password: Option<&'a [u8]>,
    /// BP, the first item wanted, as the message has it; nothing where it is absent or empty.
    pub first: Option<&'a [u8]>,
    /// BQ, the last item wanted, as the message has it; nothing where it is absent or empty.
    pub last: Option<&'a [u8]>,
}

/// A message that names a card, of which nothing else is looked at (35, 01, 37, 65).
#[derive(Clone, Copy)]
pub struct CardRequest<'a> {
    /// The 18 bytes of the transaction date.
    pub date: &'a [u8],
    /// AA, the patron identifier; it may be empty.
    pub patron: &'a [u8],
}

/// A patron message as it is read.
#[derive(Clone, Copy)]
pub enum PatronRequest<'a> {
    /// 23, Patron Status Request.
    Status(PatronStatusRequest<'a>),
    /// 63, Patron Information.
    Information(PatronInformationRequest<'a>),
    /// 35, End Patron Session.
    EndSession(CardRequest<'a>),
    /// 01, Block Patron.
    Block(CardRequest<'a>),
    /// 37, Fee Paid.
    FeePaid(CardRequest<'a>),
    /// 65, Renew All.
    RenewAll(CardRequest<'a>),
}

/// A patron message that can't be read, and what its refusal prints of it. Its values are slices of the body.
///
/// Fields begin only after a whole fixed part: where that is short there are none.
#[derive(Clone, Copy)]
pub struct UnreadablePatron<'a> {
    /// What kind of message it is.
    pub kind: PatronKind,
    /// The 3 bytes of the language of a 23 or a 63, where the body is long enough for it.
    pub language: Option<&'a [u8]>,
    /// The 18 bytes of the transaction date, where the body is long enough for it.
    pub date: Option<&'a [u8]>,
    /// AA, the patron identifier.
    pub patron: Option<&'a [u8]>,
}
