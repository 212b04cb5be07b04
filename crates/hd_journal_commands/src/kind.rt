//! Kinds of names, as a catalogue has them.

use hd_catalogue::Catalogue;
use hd_rules::{BranchNo, CopyNo, PatronNo, TerminalNo, TitleNo};
use hd_terminal_output::{branch_name, copy_name, patron_name, terminal_name, title_name};

/// All kinds, in the order in which they are reported.
pub(crate) const KINDS: [Kind; 5] = [
    Kind::Branch,
    Kind::Terminal,
    Kind::Patron,
    Kind::Title,
    Kind::Copy,
];

/// A kind of names.
#[derive(Clone, Copy)]
pub(crate) enum Kind {
    Branch,
    Terminal,
    Patron,
    Title,
    Copy,
}

impl Kind {
    /// The letter of its lines.
    pub(crate) fn letter(self) -> u8 {
        match self {
            Kind::Branch => b'B',
            Kind::Terminal => b'S',
            Kind::Patron => b'P',
            Kind::Title => b'T',
            Kind::Copy => b'C',
        }
    }

    /// The word for one.
    pub(crate) fn one(self) -> &'static str {
        match self {
            Kind::Branch => "branch",
            Kind::Terminal => "terminal",
            Kind::Patron => "patron",
            Kind::Title => "title",
            Kind::Copy => "copy",
        }
    }

    /// The word for several.
    pub(crate) fn several(self) -> &'static str {
        match self {
            Kind::Branch => "branches",
            Kind::Terminal => "terminals",
            Kind::Patron => "patrons",
            Kind::Title => "titles",
            Kind::Copy => "copies",
        }
    }

    /// How many a catalogue has.
    pub(crate) fn count(self, old: &Catalogue) -> usize {
        match self {
            Kind::Branch => old.branches(),
            Kind::Terminal => old.terminals(),
            Kind::Patron => old.patrons(),
            Kind::Title => old.titles(),
            Kind::Copy => old.copies(),
        }
    }

    /// The name with a number, empty where there is none.
    pub(crate) fn name(self, old: &Catalogue, number: usize) -> &[u8] {
        let Ok(number) = u32::try_from(number) else {
            return b"";
        };
        match self {
            Kind::Branch => name_of_branch(old, number),
            Kind::Terminal => name_of_terminal(old, number),
            Kind::Patron => match PatronNo::new(number) {
                Some(patron) => patron_name(old, patron),
                None => b"",
            },
            Kind::Title => match TitleNo::new(number) {
                Some(title) => title_name(old, title),
                None => b"",
            },
            Kind::Copy => match CopyNo::new(number) {
                Some(copy) => copy_name(old, copy),
                None => b"",
            },
        }
    }

    /// The number of a name, where there is one.
    pub(crate) fn number(self, old: &Catalogue, name: &[u8]) -> Option<usize> {
        match self {
            Kind::Branch => Some(old.branch(name)?.number() as usize),
            Kind::Terminal => terminal_number(old, name),
            Kind::Patron => Some(old.patron(name)?.number() as usize),
            Kind::Title => Some(old.title(name)?.number() as usize),
            Kind::Copy => Some(old.copy(name)?.number() as usize),
        }
    }
}

/// The name of the branch with a number, empty where there is none.
fn name_of_branch(old: &Catalogue, number: u32) -> &[u8] {
    let Ok(number) = u16::try_from(number) else {
        return b"";
    };
    match BranchNo::new(number) {
        Some(branch) => branch_name(old, branch),
        None => b"",
    }
}

/// The name of the terminal with a number, empty where there is none.
fn name_of_terminal(old: &Catalogue, number: u32) -> &[u8] {
    let Ok(number) = u16::try_from(number) else {
        return b"";
    };
    match TerminalNo::new(number) {
        Some(terminal) => terminal_name(old, terminal),
        None => b"",
    }
}

/// The number of the terminal with a name, where there is one. There are few, and they are looked up by name
/// and password alone, so each is compared.
fn terminal_number(old: &Catalogue, name: &[u8]) -> Option<usize> {
    for number in 0..old.terminals() {
        if Kind::Terminal.name(old, number) == name {
            return Some(number);
        }
    }
    None
}
