//! The names of the files of a folder's periods.
ghost use Rattle.std.specs.Prelude.{◌≡◌, ◌≢◌, Bool, Decides, IfNone, IfSome, SomeIff};
ghost use Rattle.std.specs.Str.Parse.{digits_value};
ghost use Rattle.hd_periods.specs.Names.{part, whole, word_of, IsName, IsNumberText, IsPadded};
ghost use Rattle.hd_periods.specs.declared.name.FileKind.{FileKind};
ghost use Rattle.hd_periods.specs.declared.name.FileName.{FileName};

use std::fmt;

/// What a file of a period is.
#[derive(Clone, Copy, PartialEq, Eq)]
pub enum FileKind {
    /// The catalogue.
    Catalogue,
    /// The opening: how the journal begins. The first period has none.
    Opening,
    /// The journal.
    Journal,
    /// The lines of the names that joined since the period began. A period may have none.
    Joined,
}

/// A file of a period.
#[derive(Clone, Copy)]
pub struct PeriodFile {
    /// The period's number, from 1.
    pub number: u32,
    /// What it is.
    pub kind: FileKind,
}

/// The name of a file of a period, or of its part file: the file is written under that name, and renamed when
/// it is whole.
#[derive(Clone, Copy)]
pub struct FileName {
    /// The file.
    pub file: PeriodFile,
    /// Whether it is the part file, whose name ends in `.part`.
    pub is_part: bool,
}

impl FileName {
    /// The name that a file has when it is whole.
    pub fn whole(number: u32, kind: FileKind) -> FileName
        ensures { result ≡ whole number kind }
    {
        FileName {
            file: PeriodFile { number, kind },
            is_part: false,
        }
    }

    /// The name of its part file.
    pub fn part(number: u32, kind: FileKind) -> FileName
        ensures { result ≡ part number kind }
    {
        FileName {
            file: PeriodFile { number, kind },
            is_part: true,
        }
    }

    /// The name that a text is: a number of four digits or more, a dot, and what the file is.
    pub fn named(name: &str) -> Option<FileName>
        ensures some { IfSome result (λ file. IsName file name.now) }
        ensures none { IfNone result ((file : FileName) → ¬ IsName file name.now) }
    {
        let (digits, word) = name.split_once('.')?;
        let (kind, is_part) = kind_of(word)?;
        let number = number_of(digits)?;
        Some(FileName {
            file: PeriodFile { number, kind },
            is_part,
        })
    }

    /// The text after its number and the first dot.
    pub fn word(self) -> &'static str
        ensures { result.now ≡ word_of self.file.kind self.is_part }
    {
        match (self.file.kind, self.is_part) {
            (FileKind::Catalogue, false) => "catalogue",
            (FileKind::Catalogue, true) => "catalogue.part",
            (FileKind::Opening, false) => "opening",
            (FileKind::Opening, true) => "opening.part",
            (FileKind::Journal, false) => "journal",
            (FileKind::Journal, true) => "journal.part",
            (FileKind::Joined, false) => "joined",
            (FileKind::Joined, true) => "joined.part",
        }
    }
}

/// What a file is, and whether it is a part file, by the text after the first dot of its name.
fn kind_of(word: &str) -> Option<(FileKind, bool)>
    ensures some { IfSome result (λ found. word.now ≡ word_of found.0 found.1) }
    ensures none { IfNone result ((kind : FileKind) (is_part : Bool) → word.now ≢ word_of kind is_part) }
{
    match word {
        "catalogue" => Some((FileKind::Catalogue, false)),
        "catalogue.part" => Some((FileKind::Catalogue, true)),
        "opening" => Some((FileKind::Opening, false)),
        "opening.part" => Some((FileKind::Opening, true)),
        "journal" => Some((FileKind::Journal, false)),
        "journal.part" => Some((FileKind::Journal, true)),
        "joined" => Some((FileKind::Joined, false)),
        "joined.part" => Some((FileKind::Joined, true)),
        _ => None,
    }
}

/// The number of a period that a text is, as it is written in a file's name.
fn number_of(digits: &str) -> Option<u32>
    ensures { SomeIff result (IsNumberText digits.now) (digits_value 10 digits.now) }
{
    if digits.starts_with('+') || !is_padded(digits) {
        return None;
    }
    match digits.parse::<u32>() {
        Ok(number) if number > 0 => Some(number),
        _ => None,
    }
}

/// Whether a number is written with four digits at least, and with no zero before five or more.
fn is_padded(digits: &str) -> bool
    ensures { Decides result (IsPadded digits.now) }
{
    digits.len() == 4 || digits.len() > 4 && !digits.starts_with('0')
}

impl fmt::Display for FileName {
    fn fmt<W: fmt::Write>(&self, f: &mut fmt::Formatter<W>) -> fmt::Result {
        write!(f, "{:04}.{}", self.file.number, self.word())
    }
}
