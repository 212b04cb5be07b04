//! The lines of patrons.
ghost use Rattle.std.specs.Prelude.{◌≡◌};
ghost use Rattle.hd_catalogue.specs.Text.{as_four};
ghost use Rattle.hd_patrons.specs.Lines.{is_heading, language_written, line_cause, line_said};
ghost use Rattle.hd_patrons.specs.Lines.{patron_cause, patron_said, values_cause, values_said};
ghost use Rattle.hd_patrons.specs.Reading.{Reads};
ghost use Rattle.hd_patrons.specs.Stored.{is_told};
ghost use Rattle.hd_patrons.specs.Texts.{is_text};

use crate::table::TextTable;
use hd_catalogue::{Catalogue, Cause, Values, is_letter, is_long, is_name};
use hd_rules::PatronNo;
use std::alloc::Allocator;
use std::marker::Model;

/// What a line says: a patron, and the patron's texts.
#[derive(Drop)]
pub(crate) struct PatronLine<'a> {
    pub(crate) patron: PatronNo,
    pub(crate) password: &'a [u8],
    pub(crate) language: Option<[u8; 3]>,
    pub(crate) name: &'a [u8],
}

impl<'a> Model for PatronLine<'a> {
    ghost use Rattle.hd_patrons.specs.Texts.{PatronSaid};

    ghost Value = { PatronSaid };

    ghost view = { λ line. record {
      patron = line.patron;
      texts = record { password = line.password.now; language = line.language; name = line.name.now };
    } };
}

/// Whether a first line is that of a patrons' file.
pub(crate) fn is_heading(line: &[u8]) -> bool
    ensures { result ≡ is_heading line.now }
{
    line == b"H|patrons|1".as_slice()
}

/// What a line after the first says, after lines that said what the table has.
#[tactic(auto, unfolding(crate::specs::Lines::line_cause, crate::specs::Lines::line_said))]
pub(crate) fn read_line<'a, A: Allocator + Copy>(
    catalogue: &Catalogue<A>,
    table: &TextTable<A>,
    line: &'a [u8],
) -> Result<PatronLine<'a>, Cause>
    ensures { Reads catalogue.now (is_told table.now) (line_cause catalogue.now (is_told table.now) line.now)
        (line_said catalogue.now line.now) result }
{
    read_values(catalogue, table, is_long(line), Values::of(line))
}

/// What the values of a line after the first say.
fn read_values<'a, A: Allocator + Copy>(
    catalogue: &Catalogue<A>,
    table: &TextTable<A>,
    long: bool,
    values: Values<'a>,
) -> Result<PatronLine<'a>, Cause>
    ensures { Reads catalogue.now (is_told table.now)
        (values_cause long catalogue.now (is_told table.now) values.entry)
        (values_said catalogue.now values.entry) result }
{
    let mut values = values;
    let Some(kind) = values.take() else {
        return Err(Cause::Kind);
    };
    if !is_letter(b'P', kind) {
        return Err(Cause::Kind);
    }
    read_patron(catalogue, table, long, values)
}

/// What the values after the letter say.
#[tactic(auto, unfolding(hd_catalogue::specs::Contents::patron_number))]
fn read_patron<'a, A: Allocator + Copy>(
    catalogue: &Catalogue<A>,
    table: &TextTable<A>,
    long: bool,
    values: Values<'a>,
) -> Result<PatronLine<'a>, Cause>
    ensures { Reads catalogue.now (is_told table.now)
        (patron_cause long catalogue.now (is_told table.now) (as_four values.entry))
        (patron_said catalogue.now (as_four values.entry)) result }
{
    let Some((patron, password, language, name)) = values.four() else {
        return Err(Cause::Fields);
    };
    if long || !is_name(patron) || !is_text(password) || !is_text(name) {
        return Err(Cause::Text);
    }
    let Some(language) = read_language(language) else {
        return Err(Cause::Number);
    };
    let Some(patron) = catalogue.patron(patron) else {
        return Err(Cause::Unknown);
    };
    if table.has(patron) {
        return Err(Cause::Double);
    }
    Ok(PatronLine {
        patron,
        password,
        language,
        name,
    })
}

/// Whether these bytes may be written for a password or a name: no bytes, or those of a name.
fn is_text(bytes: &[u8]) -> bool
    ensures { result ≡ is_text bytes.now }
{
    bytes.is_empty() || is_name(bytes)
}

/// The language that these bytes write: none where there are no bytes, and else three digits.
fn read_language(bytes: &[u8]) -> Option<Option<[u8; 3]>>
    ensures { result ≡ language_written bytes.now }
{
    match bytes {
        [] => Some(None),
        [a, b, c] if a.is_ascii_digit() && b.is_ascii_digit() && c.is_ascii_digit() => {
            Some(Some([*a, *b, *c]))
        }
        _ => None,
    }
}
