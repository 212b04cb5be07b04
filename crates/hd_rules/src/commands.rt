//! Commands and cancellations.

use crate::holds::HoldKind;
use crate::numbers::{BranchNo, CopyNo, PatronNo, TerminalNo, TitleNo};
use hd_day::Day;

/// What a command does (docs/desk-rules.md).
#[derive(Clone, Copy, PartialEq, Eq, Debug)]
pub enum Action {
    /// Lends the copy to the patron; renews the loan where
    /// the patron has the copy and may renew by a checkout.
    Checkout {
        patron: PatronNo,
        copy: CopyNo,
        may_renew: bool,
    },
    /// Reports a loan that took place while the terminal was off line.
    OffLine {
        patron: PatronNo,
        copy: CopyNo,
        due: Day,
    },
    /// Takes the copy in at the branch.
    Checkin {
        copy: CopyNo,
        branch: BranchNo,
    },
    /// Adds a hold.
    Add {
        patron: PatronNo,
        title: TitleNo,
        kind: HoldKind,
        pickup: BranchNo,
        expiry: Option<Day>,
    },
    /// Deletes the hold.
    Delete {
        patron: PatronNo,
        title: TitleNo,
    },
    /// Changes the hold; what is `None` stays as it is.
    Change {
        patron: PatronNo,
        title: TitleNo,
        kind: Option<HoldKind>,
        pickup: Option<BranchNo>,
        expiry: Option<Day>,
    },
    /// Renews the patron's loan of the copy.
    Renewal {
        patron: PatronNo,
        copy: CopyNo,
    },
}

/// A command: what it does, on the day of its transaction.
#[derive(Clone, Copy, PartialEq, Eq, Debug)]
pub struct Command {
    /// The day of the message's transaction date.
    pub day: Day,
    /// What it does.
    pub action: Action,
}

/// What a cancellation takes back: the newest surviving command of its terminal that is of this kind
/// (docs/protocol.md, "Cancellations").
#[derive(Clone, Copy, PartialEq, Eq, Debug)]
pub enum Cancel {
    /// A checkout of the copy, also one that renewed a loan or was reported off line.
    Checkout(CopyNo),
    /// A return of the copy.
    Checkin(CopyNo),
    /// A renewal of the copy by a renew message.
    Renewal(CopyNo),
    /// The adding of the patron's hold of the title.
    Add(PatronNo, TitleNo),
    /// The deletion of that hold.
    Delete(PatronNo, TitleNo),
    /// A change of that hold.
    Change(PatronNo, TitleNo),
}

/// A command that was accepted and not cancelled.
#[derive(Clone, Copy, PartialEq, Eq, Debug)]
pub struct Survivor {
    /// The number that it was given, from 1. None is given twice.
    pub number: u64,
    /// The terminal that sent it.
    pub terminal: TerminalNo,
    /// The command.
    pub command: Command,
}
