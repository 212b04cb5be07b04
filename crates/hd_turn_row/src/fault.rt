//! Why a row is that of no ask.

/// A column of a row.
#[derive(Clone, Copy, PartialEq, Eq, Debug)]
pub enum Column {
    /// The terminal's name.
    Terminal,
    /// The transaction day of a command.
    Day,
    /// What was asked.
    Act,
    /// The patron's name.
    Patron,
    /// The copy's name.
    Copy,
    /// The title's name.
    Title,
    /// The name of the branch of a return, or of a pickup.
    Branch,
    /// What a hold admits.
    Admits,
    /// The due day of a loan off line, or the expiry day of a hold.
    Until,
}

/// Why a row is that of no ask: its first fault. Columns that can't be read come first, in the order of the
/// table, and then those that the act needs or forbids, in the same order.
#[derive(Clone, Copy, PartialEq, Eq, Debug)]
pub enum RowFault {
    /// The column's text is a name that the catalogue lacks.
    UnknownName(Column),
    /// The column's text is none of its words.
    UnknownWord(Column),
    /// The column's text is no day.
    NoDay(Column),
    /// The act needs the column, which is empty.
    Wanting(Column),
    /// The act forbids the column, which isn't empty.
    Unwanted(Column),
}
