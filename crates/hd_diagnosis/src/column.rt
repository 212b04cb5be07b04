//! The columns of lines: what a value is.

use hd_catalogue::{is_letter, is_name, number};
use hd_rules::{MOST_LOAN_DAYS, MOST_LOANS, MOST_RENEWALS};

/// What a value of a line is.
#[derive(Clone, Copy, PartialEq, Eq, Debug)]
pub(crate) enum Column {
    Institution,
    Offset,
    CommandLimit,
    Branch,
    Terminal,
    Password,
    Patron,
    LoanLimit,
    Title,
    LoanDays,
    Renewals,
    Priority,
    Copy,
    HomeBranch,
}

impl Column {
    /// What the documents call it.
    pub(crate) fn word(self) -> &'static str {
        match self {
            Column::Institution => "institution",
            Column::Offset => "offset",
            Column::CommandLimit => "limit",
            Column::Branch => "branch",
            Column::Terminal => "terminal",
            Column::Password => "password",
            Column::Patron => "patron",
            Column::LoanLimit => "loan limit",
            Column::Title => "title",
            Column::LoanDays => "loan days",
            Column::Renewals => "renewals",
            Column::Priority => "priority",
            Column::Copy => "copy",
            Column::HomeBranch => "home branch",
        }
    }

    /// What a number in it may be; nothing where it isn't for a number.
    pub(crate) fn range(self) -> Option<&'static str> {
        match self {
            Column::Offset => Some("-1439 to 1439"),
            Column::CommandLimit => Some("1 to 1000000"),
            Column::LoanLimit => Some("0 to 999"),
            Column::LoanDays => Some("0 to 3650"),
            Column::Renewals => Some("0 to 99"),
            Column::Institution
            | Column::Branch
            | Column::Terminal
            | Column::Password
            | Column::Patron
            | Column::Title
            | Column::Priority
            | Column::Copy
            | Column::HomeBranch => None,
        }
    }

    /// Whether the catalogue takes a value in it, where it is a number or a text.
    pub(crate) fn is_fit(self, value: &[u8]) -> bool {
        match self {
            Column::Offset => is_offset(value),
            Column::CommandLimit => is_limit(value),
            Column::LoanLimit => number(MOST_LOANS, value).is_some(),
            Column::LoanDays => number(MOST_LOAN_DAYS, value).is_some(),
            Column::Renewals => number(MOST_RENEWALS, value).is_some(),
            Column::Priority => is_letter(b'L', value) || is_letter(b'N', value),
            Column::Institution
            | Column::Branch
            | Column::Terminal
            | Column::Password
            | Column::Patron
            | Column::Title
            | Column::Copy
            | Column::HomeBranch => is_name(value),
        }
    }
}

/// Whether these bytes are an offset in minutes.
fn is_offset(value: &[u8]) -> bool {
    match value.split_first() {
        Some((b'-', digits)) => matches!(number(1439, digits), Some(minutes) if minutes > 0),
        _ => number(1439, value).is_some(),
    }
}

/// Whether these bytes are a limit of commands.
fn is_limit(value: &[u8]) -> bool {
    matches!(number(1_000_000, value), Some(limit) if limit > 0)
}
