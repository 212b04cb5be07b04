//! The words of the commands that show a list each.

use crate::door_options::{
    AFTER, BRANCH_ASKED, COPY_ASKED, DAY_ASKED, DOOR_ASKED, LIMIT, NUMBER_ASKED, PATRON_ASKED,
    TITLE_ASKED,
};
use crate::list_texts::texts_of;
use crate::options::{CATALOGUE_OR_FOLDER, JOURNAL_OR_FOLDER, JSON, LIBRARY, OPENING};
use crate::show_texts::{
    JOURNAL_LIST_EXAMPLE, JOURNAL_SHOW, JOURNAL_SHOW_ABOUT, JOURNAL_SHOW_EXAMPLE, SHOW, SHOW_ABOUT,
    SHOW_EXAMPLE,
};
use crate::words::{CommandWords, OptionWords};
use hd_lists::{KeyKind, Kind, Listing};

/// What shows lists.
#[derive(Clone, Copy)]
pub(crate) enum Shower {
    /// A server, at its door.
    Server,
    /// A journal's file that no server has open.
    Journal,
}

impl Shower {
    /// The words of `show`, which it answers.
    pub(crate) fn words(self) -> CommandWords {
        let (about, long_about, example) = match self {
            Shower::Server => (SHOW_ABOUT, SHOW, SHOW_EXAMPLE),
            Shower::Journal => (JOURNAL_SHOW_ABOUT, JOURNAL_SHOW, JOURNAL_SHOW_EXAMPLE),
        };
        CommandWords {
            name: "show",
            about,
            long_about,
            example,
            options: &[],
            groups: &[],
        }
    }

    /// The words of the command below `show` that shows a list. Beside these options it has those of what
    /// shows it.
    pub(crate) fn words_of(self, list: Listing) -> CommandWords {
        let row = list.row();
        let texts = texts_of(list);
        CommandWords {
            name: row.word,
            about: row.about,
            long_about: texts.long_about,
            example: match self {
                Shower::Server => texts.example,
                Shower::Journal => JOURNAL_LIST_EXAMPLE,
            },
            options: options_by(row.key),
            groups: &[],
        }
    }

    /// The options by which it is found, and how it is to print a list.
    pub(crate) fn options(self) -> &'static [OptionWords] {
        match self {
            Shower::Server => &OF_SERVER,
            Shower::Journal => &OF_JOURNAL,
        }
    }
}

static OF_SERVER: [OptionWords; 2] = [DOOR_ASKED, JSON];

static OF_JOURNAL: [OptionWords; 5] = [
    CATALOGUE_OR_FOLDER,
    OPENING,
    LIBRARY,
    JOURNAL_OR_FOLDER,
    JSON,
];

/// The options of a list with such a key.
fn options_by(key: KeyKind) -> &'static [OptionWords] {
    match key {
        KeyKind::Name(Kind::Copy) => &BY_COPY,
        KeyKind::Name(Kind::Title) => &BY_TITLE,
        KeyKind::Name(Kind::Patron) => &BY_PATRON,
        KeyKind::Name(Kind::Branch) => &BY_BRANCH,
        KeyKind::Day => &BY_DAY,
        KeyKind::Number => &BY_NUMBER,
        KeyKind::Most => &BY_MOST,
        KeyKind::Whole => &[],
    }
}

static BY_COPY: [OptionWords; 1] = [COPY_ASKED];

static BY_TITLE: [OptionWords; 1] = [TITLE_ASKED];

static BY_PATRON: [OptionWords; 1] = [PATRON_ASKED];

static BY_BRANCH: [OptionWords; 1] = [BRANCH_ASKED];

static BY_DAY: [OptionWords; 1] = [DAY_ASKED];

static BY_NUMBER: [OptionWords; 1] = [NUMBER_ASKED];

static BY_MOST: [OptionWords; 2] = [AFTER, LIMIT];
