//! The first line of an opening file.
ghost use Rattle.std.specs.Prelude.{◌≡◌};
ghost use Rattle.std.specs.List.{list_all};
ghost use Rattle.hex.specs.Hex.{encode_lower};
ghost use Rattle.hd_catalogue.specs.Text.{as_four};
ghost use Rattle.hd_opening.specs.Lines.{first_said, first_values_said, heading_said, is_digest};
ghost use Rattle.hd_opening.specs.Lines.{is_lower_digit};

use crate::cause::OpeningCause;
use hd_catalogue::{Values, is_letter, is_long, number};
use hd_rules::MOST_GIVEN;
use hex::encode_to_slice;

/// The last number given that a first line says, where its digest is that of the catalogue file.
#[tactic(auto, unfolding(crate::specs::Lines::first_said))]
pub(crate) fn read_first(digest: &[u8; 32], line: &[u8]) -> Result<u32, OpeningCause>
    ensures { result ≡ first_said digest.now line.now }
{
    read_values(digest, !is_long(line), Values::of(line))
}

/// What the values of a first line say.
fn read_values(digest: &[u8; 32], short: bool, values: Values<'_>) -> Result<u32, OpeningCause>
    ensures { result ≡ first_values_said short digest.now values.entry }
{
    let mut values = values;
    let Some(kind) = values.take() else {
        return Err(OpeningCause::Header);
    };
    if !is_letter(b'H', kind) {
        return Err(OpeningCause::Header);
    }
    read_heading(digest, short, values)
}

/// What the values after the letter say.
fn read_heading(digest: &[u8; 32], short: bool, values: Values<'_>) -> Result<u32, OpeningCause>
    ensures { result ≡ heading_said short digest.now (as_four values.entry) }
{
    let Some((name, version, last, own)) = values.four() else {
        return Err(OpeningCause::Header);
    };
    if name != b"opening".as_slice() || version != b"1".as_slice() {
        return Err(OpeningCause::Header);
    }
    if !short || !is_digest(own) {
        return Err(OpeningCause::Text);
    }
    let Some(last) = number(MOST_GIVEN, last) else {
        return Err(OpeningCause::Number);
    };
    if own != digest_text(digest).as_slice() {
        return Err(OpeningCause::Other);
    }
    Ok(last)
}

/// Whether these bytes are a digest: 64 hexadecimal digits in lower case.
fn is_digest(text: &[u8]) -> bool
    ensures { result ≡ is_digest text.now }
{
    text.len() == 64 && are_lower_digits(text)
}

/// Whether these bytes are hexadecimal digits in lower case.
fn are_lower_digits(text: &[u8]) -> bool
    ensures { result ≡ list_all is_lower_digit text.now }
{
    text.iter().all(|byte| is_lower_digit(*byte))
}

/// Whether this byte is a hexadecimal digit in lower case.
fn is_lower_digit(byte: u8) -> bool
    ensures { result ≡ is_lower_digit byte }
{
    byte.is_ascii_digit() || (b'a'..=b'f').contains(&byte)
}

/// The text of a digest, in lower case.
pub(crate) fn digest_text(digest: &[u8; 32]) -> [u8; 64]
    ensures { result ≡ encode_lower digest.now }
{
    let mut text = [0u8; 64];
    let _written = encode_to_slice(digest.as_slice(), &mut text);
    text
}
