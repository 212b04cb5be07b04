//! The part of a list that a 63 wants.
ghost use Rattle.std.specs.Prelude.{◌≡◌};
ghost use Rattle.std.specs.Option.{option_copied};
ghost use Rattle.hd_exchange.specs.PatronAsks.{item_number, item_wanted, list_wanted};

use hd_message::PatronInformationRequest;
use hd_rules::Wanted;

/// The part of a list that a 63 wants, where its summary wants a list.
pub(crate) fn list_wanted(request: &PatronInformationRequest<'_>) -> Option<Wanted>
    ensures { result ≡ list_wanted request.now }
{
    let summary = request.summary?;
    Some(Wanted {
        summary,
        first: item_wanted(request.first).unwrap_or(1),
        last: item_wanted(request.last),
    })
}

/// The item that BP or BQ wants, counted from 1; nothing where it is missing, writes no decimal number, or
/// writes 0.
fn item_wanted(text: Option<&[u8]>) -> Option<u32>
    ensures { result ≡ item_wanted (option_copied text.entry) }
{
    match item_number(text?) {
        Some(0) => None,
        number => number,
    }
}

/// The number that decimal digits write, if there are digits alone, and some. The greatest stands for all
/// greater ones.
fn item_number(text: &[u8]) -> Option<u32>
    ensures { result ≡ item_number text.now }
{
    if text.is_empty() {
        return None;
    }
    let mut number = 0u32;
    for digit in text {
        if !digit.is_ascii_digit() {
            return None;
        }
        number = number
            .saturating_mul(10)
            .saturating_add(u32::from(*digit - b'0'));
    }
    Some(number)
}
