//! Replies to patron messages: what a kiosk is answered. Their texts are in specs/PatronReplies.antt.
//!
//! A language of a reply is 3 bytes, and a date 18 bytes, as it is printed. A patron that the message names
//! is printed as the message has it, empty where it has none.
use hd_rules::{Refusal, Summary};

/// What a patron may do (SIP2 2.00, patron status): two of its 14 positions. The others are blank.
#[derive(Clone, Copy, Debug, PartialEq, Eq)]
pub struct PatronFlags {
    /// Position 0: the patron may borrow nothing.
    pub charge_denied: bool,
    /// Position 5: the patron has as many loans as they may have.
    pub too_many_charged: bool,
}

/// What CQ says of the password of a message.
#[derive(Clone, Copy, Debug, PartialEq, Eq)]
pub enum PasswordValidity {
    /// It isn't compared: there is no CQ.
    Unasked,
    /// It is the patron's: `CQY`.
    Right,
    /// It isn't: `CQN`.
    Wrong,
}

/// A patron of the catalogue.
#[derive(Clone, Copy)]
pub struct KnownPatron<'a> {
    /// What they may do.
    pub flags: PatronFlags,
    /// AE, the name that is reported; empty where none is.
    pub name: &'a [u8],
    /// CQ.
    pub password: PasswordValidity,
}

/// What became of a question whether a patron may borrow, or of a wish to block their card.
#[derive(Clone, Copy)]
pub enum PatronStatusOutcome<'a> {
    /// The patron is known.
    Known(KnownPatron<'a>),
    /// The patron is known, and the message was to block their card: AF says that nothing is blocked.
    NotBlocked(KnownPatron<'a>),
    /// The message is refused.
    Refused {
        /// AF.
        refusal: Refusal,
    },
}

/// The reply to a question whether a patron may borrow (24, Patron Status Response).
#[derive(Clone, Copy)]
pub struct PatronStatusReply<'a> {
    /// The language.
    pub language: &'a [u8],
    /// The transaction date of the message.
    pub date: &'a [u8],
    /// AO, the institution of the catalogue.
    pub institution: &'a [u8],
    /// AA, the patron identifier of the message.
    pub patron: &'a [u8],
    /// What became of it.
    pub outcome: PatronStatusOutcome<'a>,
}

/// How much a patron has. Each is printed by four digits, as 9999 where it is more.
#[derive(Clone, Copy, Debug, PartialEq, Eq)]
pub struct Counts {
    /// The copies that are kept for the patron.
    pub hold_items: u64,
    /// The loans that are overdue.
    pub overdue_items: u64,
    /// The loans.
    pub charged_items: u64,
    /// The other holds.
    pub unavailable_holds: u64,
}

/// A list of what a patron has.
#[derive(Clone, Copy)]
pub struct ItemList<'a> {
    /// Which list it is: its items are AS, AT, AU or CD; an empty list prints none.
    pub summary: Summary,
    /// The names of the copies or titles, in their order. Those that the reply has no room for aren't
    /// printed.
    pub names: &'a [&'a [u8]],
}

/// What became of a question what a patron has.
#[derive(Clone, Copy)]
pub enum PatronInformationOutcome<'a> {
    /// The patron is known.
    Known {
        /// The patron.
        patron: KnownPatron<'a>,
        /// How much they have.
        counts: Counts,
        /// CB, how many loans they may have; 9999 where it is more.
        limit: u32,
        /// The list that is reported, if one is.
        list: Option<ItemList<'a>>,
    },
    /// The message is refused.
    Refused {
        /// AF.
        refusal: Refusal,
    },
}

/// The reply to a question what a patron has (64, Patron Information Response).
#[derive(Clone, Copy)]
pub struct PatronInformationReply<'a> {
    /// The language.
    pub language: &'a [u8],
    /// The transaction date of the message.
    pub date: &'a [u8],
    /// AO, the institution of the catalogue.
    pub institution: &'a [u8],
    /// AA, the patron identifier of the message.
    pub patron: &'a [u8],
    /// What became of it.
    pub outcome: PatronInformationOutcome<'a>,
}

/// The reply to the end of a patron's session (36, End Session Response), or to a payment (38, Fee Paid
/// Response).
#[derive(Clone, Copy)]
pub struct CardReply<'a> {
    /// The transaction date of the message.
    pub date: &'a [u8],
    /// AO, the institution of the catalogue.
    pub institution: &'a [u8],
    /// AA, the patron identifier of the message.
    pub patron: &'a [u8],
    /// AF of a refusal. Without one a session is ended; a payment is never taken.
    pub refusal: Option<Refusal>,
}

/// What became of a wish to renew all loans.
#[derive(Clone, Copy)]
pub enum RenewAllOutcome {
    /// None is renewed: AF says that each is to be renewed by itself.
    NotRenewed {
        /// The patron's loans; 9999 where there are more.
        loans: u64,
    },
    /// The message is refused.
    Refused {
        /// AF.
        refusal: Refusal,
    },
}

/// The reply to a wish to renew all loans (66, Renew All Response).
#[derive(Clone, Copy)]
pub struct RenewAllReply<'a> {
    /// The transaction date of the message.
    pub date: &'a [u8],
    /// AO, the institution of the catalogue.
    pub institution: &'a [u8],
    /// What became of it.
    pub outcome: RenewAllOutcome,
}

/// A reply to a patron message.
#[derive(Clone, Copy)]
pub enum PatronReply<'a> {
    /// 24, Patron Status Response.
    Status(PatronStatusReply<'a>),
    /// 64, Patron Information Response.
    Information(PatronInformationReply<'a>),
    /// 36, End Session Response.
    SessionEnd(CardReply<'a>),
    /// 38, Fee Paid Response.
    FeePaid(CardReply<'a>),
    /// 66, Renew All Response.
    RenewAll(RenewAllReply<'a>),
}
