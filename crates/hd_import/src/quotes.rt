//! Quotes that aren't closed.
ghost use Rattle.std.specs.Prelude.{◌≡◌, ◌≤◌, Bool, drop, is_some, length};
ghost use Rattle.csv.specs.Machine.{ends_with, step};
ghost use Rattle.csv.specs.Reading.{is_bom, strip_bom};
ghost use Rattle.csv.specs.declared.parser.State.{State};
ghost use Rattle.csv.specs.declared.parser.Terminator.TheVariants as terminator;
ghost use Rattle.hd_import.specs.Quotes.{IsReading, goes_on, has_line_end, is_open_text, is_within};
ghost use Rattle.hd_import.specs.Rows.{rules_with};

/// Where in a text its reader is, by the rules of CSV.
#[derive(Clone, Copy, PartialEq, Eq, Debug)]
pub(crate) enum Reading {
    /// Before a value.
    Before,
    /// In a value without quotes, or in what follows the quotes of one.
    Plain,
    /// Between the quotes of a value, which has the end of a line by now or hasn't.
    Within { has_line_end: bool },
    /// After the second quote of a value, or the first one of two that stand for one in it.
    Behind { has_line_end: bool },
}

impl Reading {
    /// Where the reader is one byte later.
    fn after(self, separator: u8, byte: u8) -> Reading
        ensures { (at : State) (over : Bool) → IsReading self at over
            → IsReading result (step (rules_with separator) at byte).0
            (has_line_end over (step (rules_with separator) at byte).0 byte) }
    {
        match self {
            Reading::Within { has_line_end } if byte == b'"' => Reading::Behind { has_line_end },
            Reading::Within { has_line_end } => Reading::Within {
                has_line_end: has_line_end || ends_line(byte),
            },
            Reading::Behind { has_line_end } if byte == b'"' => Reading::Within { has_line_end },
            Reading::Before if byte == b'"' => Reading::Within {
                has_line_end: false,
            },
            _ if byte == separator || ends_line(byte) => Reading::Before,
            _ => Reading::Plain,
        }
    }

    /// Whether the next byte continues a value after its quotes, though the end of a line is between these.
    fn goes_on(self, next: Reading) -> bool
        ensures { (at later : State) (over then : Bool) → IsReading self at over → IsReading next later then
            → result ≡ goes_on over at later }
    {
        match (self, next) {
            (Reading::Behind { has_line_end }, Reading::Plain) => has_line_end,
            _ => false,
        }
    }

    /// Whether the reader is between the quotes of a value.
    fn is_within(self) -> bool
        ensures { (at : State) (over : Bool) → IsReading self at over → result ≡ is_within at }
    {
        matches!(self, Reading::Within { .. })
    }
}

/// Whether a byte ends a line.
fn ends_line(byte: u8) -> bool
    ensures { result ≡ ends_with terminator.CRLF byte }
{
    byte == b'\r' || byte == b'\n'
}

/// How long the mark is that some programs put before UTF-8: nothing where there is none.
fn mark_length(text: &[u8]) -> usize
    ensures text { drop result text.now ≡ strip_bom text.now }
    ensures within { result ≤ length text.now }
{
    if text.len() < 3 {
        return 0;
    }
    if is_mark(text[0], text[1], text[2]) {
        3
    } else {
        0
    }
}

/// Whether three bytes are that mark.
fn is_mark(first: u8, second: u8, third: u8) -> bool
    ensures { result ≡ is_bom first second third }
{
    first == 0xEF && second == 0xBB && third == 0xBF
}

/// The place of the quote that isn't closed in a text, if there is one.
pub(crate) fn open_quote(separator: u8, text: &[u8]) -> Option<usize>
    ensures { is_some result ≡ is_open_text separator text.now }
{
    let mut reading = Reading::Before;
    let mut start = 0;
    for place in mark_length(text)..text.len() {
        let next = reading.after(separator, text[place]);
        if reading.goes_on(next) {
            return Some(start);
        }
        if reading == Reading::Before {
            start = place;
        }
        reading = next;
    }
    if reading.is_within() {
        Some(start)
    } else {
        None
    }
}
