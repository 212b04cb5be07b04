//! The lists, and their table.
ghost use Rattle.std.specs.List.{join_with_byte};
ghost use Rattle.std.specs.Prelude.{◌≡◌, ◌&&◌, map, not};
ghost use Rattle.std.specs.Str.{bytes_eq};
ghost use Rattle.hd_lists.specs.Lists.{heads_of, is_bare_at, is_in_path, is_named_at};
ghost use Rattle.hd_lists.specs.Lists.{kind_word, list_called, row_of};

/// What has a name in the catalogue.
#[derive(Clone, Copy, Debug, PartialEq, Eq)]
pub enum Kind {
    /// A copy.
    Copy,
    /// A title.
    Title,
    /// A patron.
    Patron,
    /// A branch.
    Branch,
}

impl Kind {
    /// Its word: the name of the option of `show`, and in the line of a fault.
    pub fn word(self) -> &'static str
        ensures { result.now ≡ kind_word self }
    {
        match self {
            Kind::Copy => "copy",
            Kind::Title => "title",
            Kind::Patron => "patron",
            Kind::Branch => "branch",
        }
    }
}

/// What a list is asked by.
#[derive(Clone, Copy, Debug, PartialEq, Eq)]
pub enum KeyKind {
    /// The name of something of a kind, in the path.
    Name(Kind),
    /// A number, in the path. Such a list has one page.
    Number,
    /// A day, in the query.
    Day,
    /// Nothing: the list is whole.
    Whole,
    /// Nothing but the most rows that there may be, in the query.
    Most,
}

impl KeyKind {
    /// Whether it is in the path.
    pub(crate) fn is_in_path(self) -> bool
        ensures { result ≡ is_in_path self }
    {
        match self {
            KeyKind::Name(_) | KeyKind::Number => true,
            KeyKind::Day | KeyKind::Whole | KeyKind::Most => false,
        }
    }
}

/// A list.
#[derive(Clone, Copy, Debug, PartialEq, Eq)]
pub enum Listing {
    /// All copies.
    Copies,
    /// Where a copy is.
    Copy,
    /// The holds of a title.
    Queue,
    /// The loans and holds of a patron.
    Patron,
    /// The hold shelf of a branch.
    Shelf,
    /// The copies on their way.
    Transits,
    /// The copies on their way to a branch.
    Transit,
    /// The loans that were due before a day.
    Overdue,
    /// The holds whose last day was before a day.
    Expired,
    /// The turns.
    Turns,
    /// A command, what it changed, and the first later one that depends on it.
    Command,
}

/// Each list once.
pub const LISTS: [Listing; 11] = [
    Listing::Copies,
    Listing::Copy,
    Listing::Queue,
    Listing::Patron,
    Listing::Shelf,
    Listing::Transits,
    Listing::Transit,
    Listing::Overdue,
    Listing::Expired,
    Listing::Turns,
    Listing::Command,
];

/// What the table has of a list. Its path is `/api/FOLDER`, or `/api/FOLDER/KEY` and the part.
#[derive(Clone, Copy)]
pub struct Row {
    /// The word of `show`, and of `journal show`.
    pub word: &'static str,
    /// What is before the key in the path.
    pub folder: &'static [u8],
    /// What is after it.
    pub part: &'static [u8],
    /// What the list is asked by.
    pub key: KeyKind,
    /// The members of a row that people are shown, in order: the headings of the table.
    pub heads: &'static [&'static str],
    /// What it is, in a line of help.
    pub about: &'static str,
}

impl Listing {
    /// Its row.
    pub fn row(self) -> Row
        ensures word { result.word.now ≡ (row_of self).word }
        ensures folder { result.folder.now ≡ (row_of self).folder }
        ensures part { result.part.now ≡ (row_of self).part }
        ensures key { result.key ≡ (row_of self).key }
        ensures heads { join_with_byte 32 (map (λ head. head.now) result.heads.now) ≡ heads_of self }
    {
        match self {
            Listing::Copies => Row {
                word: "copies",
                folder: b"copies",
                part: b"",
                key: KeyKind::Whole,
                heads: &[
                    "copy", "title", "home", "state", "branch", "to", "place", "patron", "due",
                    "renewals",
                ],
                about: "Shows where each copy is, who has it, and till when",
            },
            Listing::Copy => Row {
                word: "copy",
                folder: b"copies",
                part: b"",
                key: KeyKind::Name(Kind::Copy),
                heads: &[
                    "copy", "title", "state", "branch", "to", "place", "patron", "due",
                ],
                about: "Shows where a copy is, who has it, and till when",
            },
            Listing::Queue => Row {
                word: "title",
                folder: b"titles",
                part: b"/queue",
                key: KeyKind::Name(Kind::Title),
                heads: &[
                    "position", "patron", "stamp", "admits", "only", "pickup", "until", "copy",
                ],
                about: "Shows who waits for a title, in order",
            },
            Listing::Patron => Row {
                word: "patron",
                folder: b"patrons",
                part: b"",
                key: KeyKind::Name(Kind::Patron),
                heads: &[
                    "row", "copy", "title", "due", "renewals", "position", "pickup", "until",
                ],
                about: "Shows what a patron has, and what they wait for",
            },
            Listing::Shelf => Row {
                word: "shelf",
                folder: b"branches",
                part: b"/shelf",
                key: KeyKind::Name(Kind::Branch),
                heads: &["place", "copy", "title", "patron"],
                about: "Shows the hold shelf of a branch",
            },
            Listing::Transits => Row {
                word: "transits",
                folder: b"transits",
                part: b"",
                key: KeyKind::Whole,
                heads: &["copy", "title", "branch", "to", "patron"],
                about: "Shows what is on its way between branches",
            },
            Listing::Transit => Row {
                word: "transit",
                folder: b"branches",
                part: b"/transit",
                key: KeyKind::Name(Kind::Branch),
                heads: &["copy", "title", "branch", "to", "patron"],
                about: "Shows what is on its way to a branch",
            },
            Listing::Overdue => Row {
                word: "overdue",
                folder: b"overdue",
                part: b"",
                key: KeyKind::Day,
                heads: &["copy", "title", "patron", "due", "renewals"],
                about: "Shows the loans that were due before a day",
            },
            Listing::Expired => Row {
                word: "expired",
                folder: b"expired",
                part: b"",
                key: KeyKind::Day,
                heads: &[
                    "title", "patron", "stamp", "admits", "only", "pickup", "until", "copy",
                ],
                about: "Shows the holds whose last day was before a day",
            },
            Listing::Turns => Row {
                word: "turns",
                folder: b"turns",
                part: b"",
                key: KeyKind::Most,
                heads: &[
                    "turn", "terminal", "asked", "day", "patron", "copy", "title", "outcome",
                    "number", "why",
                ],
                about: "Shows what was asked of the desk, and what it came to",
            },
            Listing::Command => Row {
                word: "command",
                folder: b"commands",
                part: b"",
                key: KeyKind::Number,
                heads: &[
                    "row",
                    "asked",
                    "day",
                    "patron",
                    "copy",
                    "title",
                    "state",
                    "branch",
                    "due",
                    "pickup",
                    "dependent",
                ],
                about: "Shows what a command changed, and whether it can be cancelled",
            },
        }
    }

    /// The list of this word, if there is one.
    #[tactic(auto, unfolding(crate::specs::Lists::list_called))]
    pub fn called(word: &str) -> Option<Listing>
        ensures { result ≡ list_called word.now }
    {
        LISTS.iter().copied().find(|list| list.row().word == word)
    }

    /// Whether it is at this folder, with this part after its key.
    pub(crate) fn is_named_at(self, folder: &[u8], part: &[u8]) -> bool
        ensures { result ≡ is_named_at folder.now part.now self }
    {
        let row = self.row();
        row.key.is_in_path() && row.folder == folder && row.part == part
    }

    /// Whether it is at this folder, with no key in its path.
    pub(crate) fn is_bare_at(self, folder: &[u8]) -> bool
        ensures { result ≡ is_bare_at folder.now self }
    {
        let row = self.row();
        !row.key.is_in_path() && row.folder == folder
    }
}
