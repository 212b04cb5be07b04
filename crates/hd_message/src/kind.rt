//! The kinds of messages that are read.

/// The kind of a message that asks something of the desk, by its code (SIP2 2.00, message identifiers).
#[derive(Clone, Copy, Debug, PartialEq, Eq)]
pub enum DeskKind {
    /// 11, Checkout.
    Checkout,
    /// 09, Checkin.
    Checkin,
    /// 15, Hold.
    Hold,
    /// 29, Renew.
    Renew,
    /// 17, Item Information.
    Item,
}

/// The kind of a message that is read, by its code.
#[derive(Clone, Copy, Debug, PartialEq, Eq)]
pub(crate) enum Kind {
    /// 93, Login.
    Login,
    /// 99, SC Status.
    Status,
    /// 97, Request ACS Resend.
    Resend,
    /// A message that asks something of the desk.
    Desk(DeskKind),
}
