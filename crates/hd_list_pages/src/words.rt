//! The words and headings of rows.
ghost use Rattle.std.specs.Prelude.{◌≡◌};
ghost use Rattle.hd_list_pages.specs.Words.{heading_text, word_text};

use hd_ask_parts::{Act, Admits};

/// A word of a row.
#[derive(Clone, Copy)]
pub(crate) enum Word {
    /// A copy's row.
    Copy,
    /// A hold's row.
    Hold,
    /// A turn's row.
    Turn,
    /// A command's row.
    Command,
    /// The row of a cell before a command.
    Before,
    /// The row of a cell after it.
    After,
    /// On the open shelf of a branch.
    OpenShelf,
    /// On loan.
    OnLoan,
    /// On the hold shelf of a branch.
    HoldShelf,
    /// Between two branches.
    InTransit,
    /// Which copies a hold admits.
    Admits(Admits),
    /// What a command or a cancellation does.
    Act(Act),
    /// A query of a copy.
    Item,
    /// A command was accepted.
    Done,
    /// A command or a cancellation was refused.
    Refused,
    /// A command was cancelled.
    Cancelled,
}

impl Word {
    /// Its text.
    pub(crate) fn text(self) -> &'static [u8]
        ensures { result.now ≡ word_text self }
    {
        match self {
            Word::Copy => b"copy",
            Word::Hold => b"hold",
            Word::Turn => b"turn",
            Word::Command => b"command",
            Word::Before => b"before",
            Word::After => b"after",
            Word::OpenShelf => b"open shelf",
            Word::OnLoan => b"on loan",
            Word::HoldShelf => b"hold shelf",
            Word::InTransit => b"in transit",
            Word::Admits(admits) => admits.word(),
            Word::Act(act) => act.word(),
            Word::Item => b"item",
            Word::Done => b"done",
            Word::Refused => b"refused",
            Word::Cancelled => b"cancelled",
        }
    }
}

/// The name of a member of a row.
#[derive(Clone, Copy)]
pub enum Heading {
    /// What the row tells: a copy, a hold, a turn, a command, or a cell before or after one.
    Row,
    /// A copy.
    Copy,
    /// A title.
    Title,
    /// The branch where a copy is at home.
    Home,
    /// Where a copy is.
    State,
    /// The branch where it is, or which sent it; of what is asked, where.
    Branch,
    /// The branch that it is on the way to.
    To,
    /// Its place on a hold shelf.
    Place,
    /// A patron.
    Patron,
    /// The day on which a loan is due.
    Due,
    /// How often a loan was renewed.
    Renewals,
    /// A hold's position in its title's queue.
    Position,
    /// The number of the command that added a hold.
    Stamp,
    /// Which copies a hold admits.
    Admits,
    /// The one copy that a hold admits.
    Only,
    /// Where a hold's copy is fetched.
    Pickup,
    /// The last day of a hold, or the due day of a loan that was made off line.
    Until,
    /// The number of a turn.
    Turn,
    /// The seat that a turn came from.
    Seat,
    /// The terminal that asked.
    Terminal,
    /// What it asked.
    Asked,
    /// The day of its transaction.
    Day,
    /// What a turn came to.
    Outcome,
    /// The number of the command that a reply names.
    Number,
    /// Why it was refused.
    Why,
    /// The number of a command.
    Command,
    /// The number of the first later command that depends on it.
    Dependent,
    /// Where the next page begins.
    Next,
}

impl Heading {
    /// Its text.
    pub fn text(self) -> &'static [u8]
        ensures { result.now ≡ heading_text self }
    {
        match self {
            Heading::Row => b"row",
            Heading::Copy => b"copy",
            Heading::Title => b"title",
            Heading::Home => b"home",
            Heading::State => b"state",
            Heading::Branch => b"branch",
            Heading::To => b"to",
            Heading::Place => b"place",
            Heading::Patron => b"patron",
            Heading::Due => b"due",
            Heading::Renewals => b"renewals",
            Heading::Position => b"position",
            Heading::Stamp => b"stamp",
            Heading::Admits => b"admits",
            Heading::Only => b"only",
            Heading::Pickup => b"pickup",
            Heading::Until => b"until",
            Heading::Turn => b"turn",
            Heading::Seat => b"seat",
            Heading::Terminal => b"terminal",
            Heading::Asked => b"asked",
            Heading::Day => b"day",
            Heading::Outcome => b"outcome",
            Heading::Number => b"number",
            Heading::Why => b"why",
            Heading::Command => b"command",
            Heading::Dependent => b"dependent",
            Heading::Next => b"next",
        }
    }
}
