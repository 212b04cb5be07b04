//! The kinds of lines after the first.

use crate::column::Column;
use hd_catalogue::is_letter;

/// A kind of line: what it defines.
#[derive(Clone, Copy, PartialEq, Eq, Debug)]
pub(crate) enum Kind {
    Branch,
    Terminal,
    Patron,
    Title,
    Copy,
}

impl Kind {
    /// The kind of the lines that begin with this value.
    pub(crate) fn of(value: &[u8]) -> Option<Kind> {
        if is_letter(b'B', value) {
            Some(Kind::Branch)
        } else if is_letter(b'S', value) {
            Some(Kind::Terminal)
        } else if is_letter(b'P', value) {
            Some(Kind::Patron)
        } else if is_letter(b'T', value) {
            Some(Kind::Title)
        } else if is_letter(b'C', value) {
            Some(Kind::Copy)
        } else {
            None
        }
    }

    /// What the documents call what it defines.
    pub(crate) fn word(self) -> &'static str {
        match self {
            Kind::Branch => "branch",
            Kind::Terminal => "terminal",
            Kind::Patron => "patron",
            Kind::Title => "title",
            Kind::Copy => "copy",
        }
    }

    /// What such a line looks like, in a file whose titles have priorities or don't.
    pub(crate) fn form(self, has_priorities: bool) -> &'static str {
        match self {
            Kind::Branch => "B|branch",
            Kind::Terminal => "S|terminal|password|branch",
            Kind::Patron => "P|patron|loan limit",
            Kind::Title => {
                if has_priorities {
                    "T|title|loan days|renewals|priority"
                } else {
                    "T|title|loan days|renewals"
                }
            }
            Kind::Copy => "C|copy|title|home branch",
        }
    }

    /// The columns after the letter.
    pub(crate) fn columns(self, has_priorities: bool) -> &'static [Column] {
        match self {
            Kind::Branch => &[Column::Branch],
            Kind::Terminal => &[Column::Terminal, Column::Password, Column::Branch],
            Kind::Patron => &[Column::Patron, Column::LoanLimit],
            Kind::Title => {
                if has_priorities {
                    &[
                        Column::Title,
                        Column::LoanDays,
                        Column::Renewals,
                        Column::Priority,
                    ]
                } else {
                    &[Column::Title, Column::LoanDays, Column::Renewals]
                }
            }
            Kind::Copy => &[Column::Copy, Column::Title, Column::HomeBranch],
        }
    }
}
