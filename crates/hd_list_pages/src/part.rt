//! What is told in a row.
ghost use Rattle.std.specs.Prelude.{◌≡◌};
ghost use Rattle.hd_list_pages.specs.Columns.{column, day_column};

use crate::words::{Heading, Word};
use hd_rules::{BranchNo, CopyNo, Day, PatronNo, Refusal, TerminalNo, TitleNo};

/// What a member tells but for days: nothing where there is none.
#[derive(Clone, Copy)]
pub(crate) enum Plain {
    /// A word.
    Word(Option<Word>),
    /// The words of a refusal.
    Refusal(Option<Refusal>),
    /// A number.
    Number(Option<u64>),
    /// The name of a copy.
    Copy(Option<CopyNo>),
    /// The name of a copy's title.
    TitleOf(Option<CopyNo>),
    /// The name of a copy's home.
    HomeOf(Option<CopyNo>),
    /// The name of a title.
    Title(Option<TitleNo>),
    /// The name of a branch.
    Branch(Option<BranchNo>),
    /// The name of a patron.
    Patron(Option<PatronNo>),
    /// The name of a terminal.
    Terminal(TerminalNo),
}

/// What a member tells.
#[derive(Clone, Copy)]
pub(crate) enum Part {
    /// All but days.
    Plain(Plain),
    /// A day, if there is one.
    Day(Option<Day>),
}

/// A member: its heading, and what it tells.
#[derive(Clone, Copy)]
pub(crate) struct Column {
    pub(crate) heading: Heading,
    pub(crate) part: Part,
}

/// A member that tells no day.
pub(crate) fn plain_column(heading: Heading, plain: Plain) -> Column
    ensures { result ≡ column heading plain }
{
    Column {
        heading,
        part: Part::Plain(plain),
    }
}

/// A member that tells a day, if there is one.
pub(crate) fn day_column(heading: Heading, day: Option<Day>) -> Column
    ensures { result ≡ day_column heading day }
{
    Column {
        heading,
        part: Part::Day(day),
    }
}
