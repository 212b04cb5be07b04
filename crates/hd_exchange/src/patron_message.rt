//! Patron messages, as they are answered: refused beforehand, alone, or by one look at the desk.

use hd_message::PatronKind;
use hd_rules::{Day, PatronNo, Refusal, Wanted};

/// The values of a patron message that its reply prints, or that are checked for it.
#[derive(Clone, Copy)]
pub(crate) struct PatronValues<'a> {
    /// The transaction date in local form, or the present where that is missing or unreadable.
    pub(crate) date: [u8; 18],
    /// The 3 bytes of the language; `000` where the message has none.
    pub(crate) language: &'a [u8],
    /// AA, the patron identifier; empty where the message has none.
    pub(crate) patron: &'a [u8],
    /// AD, the patron password, of a 23 or a 63; nothing where it is absent or empty.
    pub(crate) password: Option<&'a [u8]>,
}

/// What is asked about a patron.
#[derive(Clone, Copy)]
pub(crate) enum PatronQuestion {
    /// 23: whether they may borrow.
    Status,
    /// 63: how much they have, and a part of a list of it, where one is wanted.
    Information(Option<Wanted>),
    /// 01: that their card is blocked.
    Block,
    /// 65: that all their loans are renewed.
    RenewAll,
}

/// A look at what a patron has.
#[derive(Clone, Copy)]
pub(crate) struct PatronLook {
    /// Who is asked about.
    pub(crate) patron: PatronNo,
    /// The day of the transaction date.
    pub(crate) day: Day,
    /// What is asked.
    pub(crate) question: PatronQuestion,
}

/// What a patron message asks.
#[derive(Clone, Copy)]
pub(crate) enum PatronAsk {
    /// 35: that a patron's session is ended.
    EndSession,
    /// 37: that a payment is taken.
    TakePayment,
    /// 23, 63, 01 or 65: what one look at the desk shows.
    Look(PatronLook),
}

/// A patron message, with its date read and its patron looked up.
#[derive(Clone, Copy)]
pub(crate) struct PatronMessage<'a> {
    /// What kind of message it is.
    pub(crate) kind: PatronKind,
    /// Its values.
    pub(crate) values: PatronValues<'a>,
    /// What it asks, or the first refusal by the session, its date and its patron.
    pub(crate) asks: Result<PatronAsk, Refusal>,
}
