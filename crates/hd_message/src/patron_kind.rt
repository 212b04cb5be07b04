//! The kinds of patron messages.

/// The kind of a patron message, by its code (SIP2 2.00, message identifiers).
#[derive(Clone, Copy, Debug, PartialEq, Eq)]
pub enum PatronKind {
    /// 23, Patron Status Request.
    Status,
    /// 63, Patron Information.
    Information,
    /// 35, End Patron Session.
    EndSession,
    /// 01, Block Patron.
    Block,
    /// 37, Fee Paid.
    FeePaid,
    /// 65, Renew All.
    RenewAll,
}
