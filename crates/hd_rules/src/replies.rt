//! What a desk answers.

use crate::copies::CopyState;
use crate::holds::Hold;
use crate::numbers::{BranchNo, TitleNo};
use hd_day::Day;

/// Why a message is refused (docs/protocol.md, "Refusals"). Where several apply, the first of them is given.
#[derive(Clone, Copy, PartialEq, Eq, Debug)]
pub enum Refusal {
    /// No terminal is logged in.
    NotLoggedIn,
    /// The message can't be read.
    Unreadable,
    /// A date can't be read.
    BadDate,
    /// No such patron.
    UnknownPatron,
    /// No such copy.
    UnknownItem,
    /// No such title, or another than the copy's.
    UnknownTitle,
    /// No such branch.
    UnknownBranch,
    /// The patron has a hold of the title.
    HoldExists,
    /// The patron has no hold of the title.
    NoSuchHold,
    /// The hold has its copy.
    HoldHasCopy,
    /// The expiry day is before the transaction day.
    ExpiryPassed,
    /// The copy is on loan.
    OnLoan,
    /// The copy is kept for another patron, or another's hold comes first.
    KeptForAnother,
    /// The copy is in transit.
    InTransit,
    /// The patron has as many loans as the limit allows.
    LoanLimit,
    /// The copy isn't on loan to the patron.
    NotOnLoan,
    /// The loan was renewed as often as it may be, or another patron wants the copy.
    NotRenewable,
    /// The due day would be after 9999-12-31.
    DueRange,
    /// All numbers are given.
    JournalFull,
    /// The cancellation has no target.
    NothingToCancel,
    /// The surviving command of this number, the least, depends on the target.
    Depends { number: u64 },
}

/// What the reply to an accepted command says besides the message's own values, date and names.
#[derive(Clone, Copy, PartialEq, Eq, Debug)]
pub enum Reply {
    /// To a checkout or a renewal.
    LentOrRenewed {
        title: TitleNo,
        due: Day,
        renewal: bool,
    },
    /// To a checkin: where the copy is now.
    Returned {
        title: TitleNo,
        home: BranchNo,
        now: CopyState,
    },
    /// To the adding or a change of a hold: the hold, its position,
    /// and whether some copy that it admits is available.
    Held {
        title: TitleNo,
        available: bool,
        position: u64,
        hold: Hold,
    },
    /// To the deletion of a hold.
    Deleted {
        title: TitleNo,
    },
}

/// What a query of a copy shows.
#[derive(Clone, Copy, PartialEq, Eq, Debug)]
pub struct ItemView {
    /// Where the copy is.
    pub state: CopyState,
    /// How many holds its title has, with and without a copy.
    pub holds: u32,
}

/// The reply of a turn.
#[derive(Clone, Copy, PartialEq, Eq, Debug)]
pub enum TurnReply {
    /// The command was accepted and has this number.
    Done { number: u64, reply: Reply },
    /// The command or the cancellation was refused.
    Refused(Refusal),
    /// The command of this number was cancelled.
    Cancelled { number: u64 },
    /// To a query.
    Item(ItemView),
}
