//! Replies: what a terminal is answered. Their texts are in docs/protocol.md, "Replies written".
//!
//! A date of a reply is 18 bytes, as it is printed. A copy, a title or a patron that the message names is
//! printed as the message has it, empty where it has none.
use crate::patron_reply::PatronReply;
use crate::sorter_reply::{SorterItemReply, SorterReply};
use hd_date::Day;
use hd_rules::Refusal;

/// What became of a checkout or a renewal.
#[derive(Clone, Copy)]
pub enum LoanOutcome<'a> {
    /// The copy is on loan to the patron.
    Lent {
        /// Whether a loan of the patron was renewed. The reply to a renewal doesn't look at it: it says that
        /// one was.
        renewed: bool,
        /// AJ, the title identifier.
        title: &'a [u8],
        /// AH, the day on which the copy is due.
        due: &'a Day,
    },
    /// An earlier message is cancelled: a checkin by a checkout, a renewal by a renewal.
    Cancelled {
        /// AJ, the title identifier.
        title: &'a [u8],
        /// The number of the cancelled command.
        number: u64,
    },
    /// Nothing is changed.
    Refused {
        /// AF.
        refusal: Refusal,
    },
}

/// The reply to a checkout (12, Checkout Response) or a renewal (30, Renew Response).
#[derive(Clone, Copy)]
pub struct LoanReply<'a> {
    /// The transaction date of the message.
    pub date: &'a [u8],
    /// AO, the institution of the catalogue.
    pub institution: &'a [u8],
    /// AA, the patron identifier of the message.
    pub patron: &'a [u8],
    /// AB, the item identifier of the message.
    pub copy: &'a [u8],
    /// What became of it.
    pub outcome: LoanOutcome<'a>,
}

/// Where a copy is after its return.
#[derive(Clone, Copy)]
pub enum Whereabouts<'a> {
    /// On the open shelf of its home.
    OpenShelf,
    /// On the hold shelf of the branch where it was returned.
    HoldShelf {
        /// Its place there, from 1.
        place: u32,
    },
    /// In transit.
    Transit {
        /// The branch to which it goes.
        branch: &'a [u8],
    },
}

/// What became of a checkin.
#[derive(Clone, Copy)]
pub enum CheckinOutcome<'a> {
    /// The copy is back.
    Returned {
        /// AQ, the branch that is the copy's home.
        home: &'a [u8],
        /// AJ, the title identifier.
        title: &'a [u8],
        /// The alert and CL, an own field.
        whereabouts: Whereabouts<'a>,
    },
    /// An earlier checkout is cancelled.
    Cancelled {
        /// AQ, the branch that is the copy's home.
        home: &'a [u8],
        /// AJ, the title identifier.
        title: &'a [u8],
        /// The number of the cancelled command.
        number: u64,
    },
    /// Nothing is changed.
    Refused {
        /// AF.
        refusal: Refusal,
    },
}

/// The reply to a checkin (10, Checkin Response).
#[derive(Clone, Copy)]
pub struct CheckinReply<'a> {
    /// The transaction date of the message.
    pub date: &'a [u8],
    /// AO, the institution of the catalogue.
    pub institution: &'a [u8],
    /// AB, the item identifier of the message.
    pub copy: &'a [u8],
    /// What became of it.
    pub outcome: CheckinOutcome<'a>,
}

/// What became of a hold message.
#[derive(Clone, Copy)]
pub enum HoldOutcome<'a> {
    /// The hold is added or changed.
    Held {
        /// Whether some copy that the hold admits stands on an open shelf.
        available: bool,
        /// BW, the last day of the hold, where there is one.
        expiry: Option<&'a Day>,
        /// BR, the hold's position in its title's queue, from 1.
        position: u64,
        /// BS, the pickup branch.
        pickup: &'a [u8],
        /// AJ, the title identifier.
        title: &'a [u8],
    },
    /// The hold is deleted.
    Deleted {
        /// AJ, the title identifier.
        title: &'a [u8],
    },
    /// An earlier hold message is cancelled.
    Cancelled {
        /// AJ, the title identifier.
        title: &'a [u8],
        /// The number of the cancelled command.
        number: u64,
    },
    /// Nothing is changed.
    Refused {
        /// AJ, the title identifier of the message; nothing where that is empty.
        title: Option<&'a [u8]>,
        /// AF.
        refusal: Refusal,
    },
}

/// The reply to a hold message (16, Hold Response).
#[derive(Clone, Copy)]
pub struct HoldReply<'a> {
    /// The transaction date of the message.
    pub date: &'a [u8],
    /// AO, the institution of the catalogue.
    pub institution: &'a [u8],
    /// AA, the patron identifier of the message.
    pub patron: &'a [u8],
    /// AB, the item identifier of the message; nothing where that is empty.
    pub copy: Option<&'a [u8]>,
    /// What became of it.
    pub outcome: HoldOutcome<'a>,
}

/// Where a copy is (SIP2 2.00, circulation status).
#[derive(Clone, Copy)]
pub enum Circulation<'a> {
    /// On an open shelf.
    OpenShelf {
        /// AP, the branch where it stands.
        branch: &'a [u8],
    },
    /// On loan.
    Loan {
        /// AH, the day on which it is due.
        due: &'a Day,
    },
    /// On a hold shelf.
    HoldShelf {
        /// AP, the branch where it stands.
        branch: &'a [u8],
    },
    /// In transit.
    Transit,
}

/// What is known of a copy.
#[derive(Clone, Copy)]
pub enum ItemOutcome<'a> {
    /// The catalogue has the copy.
    Found {
        /// CF, the number of holds of its title.
        holds: u64,
        /// AJ, the title identifier.
        title: &'a [u8],
        /// AQ, the branch that is its home.
        home: &'a [u8],
        /// Where it is.
        circulation: Circulation<'a>,
    },
    /// The question is refused.
    Refused {
        /// AF.
        refusal: Refusal,
    },
}

/// The reply to a question about a copy (18, Item Information Response).
#[derive(Clone, Copy)]
pub struct ItemReply<'a> {
    /// The transaction date of the message.
    pub date: &'a [u8],
    /// AB, the item identifier of the message.
    pub copy: &'a [u8],
    /// What is known of it.
    pub outcome: ItemOutcome<'a>,
}

/// The reply to a status message (98, ACS Status).
#[derive(Clone, Copy)]
pub struct StatusReply<'a> {
    /// The present.
    pub date: &'a [u8],
    /// AO, the institution of the catalogue.
    pub institution: &'a [u8],
}

/// The reply to a login (94, Login Response).
#[derive(Clone, Copy)]
pub struct LoginReply {
    /// Whether the login is taken.
    pub taken: bool,
}

/// A reply.
#[derive(Clone, Copy)]
pub enum Reply<'a> {
    /// 94, Login Response.
    Login(LoginReply),
    /// 98, ACS Status.
    Status(StatusReply<'a>),
    /// 12, Checkout Response.
    Checkout(LoanReply<'a>),
    /// 10, Checkin Response.
    Checkin(CheckinReply<'a>),
    /// 16, Hold Response.
    Hold(HoldReply<'a>),
    /// 30, Renew Response.
    Renew(LoanReply<'a>),
    /// 18, Item Information Response.
    Item(ItemReply<'a>),
    /// 96, Request SC Resend: the message is none that is read, or came damaged.
    RequestScResend,
    /// 98, ACS Status, where patron messages are read.
    StatusWithPatrons(StatusReply<'a>),
    /// 24, 64, 36, 38 or 66: the reply to a patron message.
    Patron(PatronReply<'a>),
    /// 10, Checkin Response, with sorter fields.
    Sorter(SorterReply<'a>),
    /// 18, Item Information Response, with sorter fields.
    SorterItem(SorterItemReply<'a>),
}
