//! Appending the parts of a reply.
ghost use Rattle.std.specs.Prelude.{◌≡◌, ◌+◌, ◌<◌, ◌≤◌, ◌++◌, OnOk, OnErr, codes, decimal, length, vec_len};
ghost use Rattle.std.specs.Prelude.{vec_capacity};
ghost use Rattle.std.specs.List.{flat_map};
ghost use Rattle.hd_message.specs.Fields.{count_text, field_text, refusal_field, yes_no};
ghost use Rattle.hd_message.specs.Part.{part_text};

use crate::part::Part;
use hd_rules::Refusal;
use itoa::Buffer;
use std::alloc::{AllocError, Allocator};

/// Appends the parts, all of them or none.
pub(crate) fn append<A: Allocator>(
    out: &mut Vec<u8, A>,
    parts: &[Part<'_>],
) -> Result<(), AllocError>
    ensures ok { OnOk result (out.new.items ≡ out.old.items ++ flat_map part_text parts.now) }
    ensures err { OnErr result (out.new.items ≡ out.old.items) }
    ensures full { OnErr result (vec_capacity out.old
        < vec_len out.old + length (flat_map part_text parts.now)) }
    ensures capacity { vec_capacity out.old ≤ vec_capacity out.new }
{
    let start = out.len();
    for part in parts {
        if let Err(error) = put(out, *part) {
            out.truncate(start);
            return Err(error);
        }
    }
    Ok(())
}

/// Appends one part, whole or not at all.
fn put<A: Allocator>(out: &mut Vec<u8, A>, part: Part<'_>) -> Result<(), AllocError>
    ensures ok { OnOk result (out.new.items ≡ out.old.items ++ part_text part.entry) }
    ensures err { OnErr result (out.new.items ≡ out.old.items) }
    ensures full { OnErr result (vec_capacity out.old < vec_len out.old + length (part_text part.entry)) }
    ensures capacity { vec_capacity out.old ≤ vec_capacity out.new }
{
    match part {
        Part::Text(text) => out.extend_from_slice(text),
        Part::YesNo(holds) => out.extend_from_slice(yes_no(holds)),
        Part::Field(code, value) | Part::Optional(code, Some(value)) => put_field(out, code, value),
        Part::Optional(_, None) | Part::Expiry(None) => Ok(()),
        Part::Due(day) => put_field(out, *b"AH", day.as_slice()),
        Part::Expiry(Some(day)) => put_field(out, *b"BW", day.as_slice()),
        Part::Position(position) => put_number(out, *b"BR", b"", position),
        Part::Holds(holds) => put_number(out, *b"CF", b"", holds),
        Part::Place(place) => put_number(out, *b"CL", b"H", u64::from(place)),
        Part::Bound(branch) => put_joined(out, *b"CL", b"T", branch),
        Part::Cancelled(number) => put_number(out, *b"AF", b"CANCELLED ", number),
        Part::Refused(refusal) => put_refusal(out, refusal),
        Part::Count(count) => out.extend_from_slice(&count_text(count)),
        Part::Limit(limit) => put_field(out, *b"CB", &count_text(u64::from(limit))),
        Part::OnHoldShelf(place) => put_number(out, *b"AF", b"HOLD SHELF ", u64::from(place)),
    }
}

/// The byte that says whether something holds.
fn yes_no(holds: bool) -> &'static [u8]
    ensures { result.now ≡ yes_no holds }
{
    if holds { b"Y" } else { b"N" }
}

/// A count in four digits, 9999 where it is more.
fn count_text(count: u64) -> [u8; 4]
    ensures { result ≡ count_text count }
{
    let shown = count.min(9999);
    [
        digit(shown / 1000),
        digit(shown / 100 % 10),
        digit(shown / 10 % 10),
        digit(shown % 10),
    ]
}

/// The decimal digit of a number.
fn digit(number: u64) -> u8
    requires { number < 10 }
    ensures { result ≡ 48 + number }
{
    b'0' + number as u8
}

/// Appends AF with the text of a refusal, whole or not at all.
fn put_refusal<A: Allocator>(out: &mut Vec<u8, A>, refusal: Refusal) -> Result<(), AllocError>
    ensures ok { OnOk result (out.new.items ≡ out.old.items ++ refusal_field refusal) }
    ensures err { OnErr result (out.new.items ≡ out.old.items) }
    ensures full { OnErr result (vec_capacity out.old < vec_len out.old + length (refusal_field refusal)) }
    ensures capacity { vec_capacity out.old ≤ vec_capacity out.new }
{
    match refusal {
        Refusal::Depends { number } => put_number(out, *b"AF", b"DEPENDS ", number),
        _ => put_field(out, *b"AF", refusal.words()),
    }
}

/// Appends a field, whole or not at all.
pub(crate) fn put_field<A: Allocator>(
    out: &mut Vec<u8, A>,
    code: [u8; 2],
    value: &[u8],
) -> Result<(), AllocError>
    ensures ok { OnOk result (out.new.items ≡ out.old.items ++ field_text code value.now) }
    ensures err { OnErr result (out.new.items ≡ out.old.items) }
    ensures full { OnErr result (vec_capacity out.old
        < vec_len out.old + length (field_text code value.now)) }
    ensures capacity { vec_capacity out.old ≤ vec_capacity out.new }
{
    out.reserve(value.len() + 3)?;
    out.push_reserved(code[0]);
    out.push_reserved(code[1]);
    out.extend_from_slice(value).unwrap();
    out.push_reserved(b'|');
    Ok(())
}

/// Appends a field of two texts, whole or not at all.
fn put_joined<A: Allocator>(
    out: &mut Vec<u8, A>,
    code: [u8; 2],
    text: &[u8],
    rest: &[u8],
) -> Result<(), AllocError>
    requires { length text.now < 16 }
    ensures ok { OnOk result (out.new.items ≡ out.old.items ++ field_text code (text.now ++ rest.now)) }
    ensures err { OnErr result (out.new.items ≡ out.old.items) }
    ensures full { OnErr result (vec_capacity out.old
        < vec_len out.old + length (field_text code (text.now ++ rest.now))) }
    ensures capacity { vec_capacity out.old ≤ vec_capacity out.new }
{
    out.reserve(text.len() + rest.len() + 3)?;
    out.push_reserved(code[0]);
    out.push_reserved(code[1]);
    out.extend_from_slice(text).unwrap();
    out.extend_from_slice(rest).unwrap();
    out.push_reserved(b'|');
    Ok(())
}

/// Appends a field of a text and a number, whole or not at all.
fn put_number<A: Allocator>(
    out: &mut Vec<u8, A>,
    code: [u8; 2],
    text: &[u8],
    number: u64,
) -> Result<(), AllocError>
    requires { length text.now < 16 }
    ensures ok { OnOk result (out.new.items ≡ out.old.items ++ field_text code (text.now ++ decimal number)) }
    ensures err { OnErr result (out.new.items ≡ out.old.items) }
    ensures full { OnErr result (vec_capacity out.old
        < vec_len out.old + length (field_text code (text.now ++ decimal number))) }
    ensures capacity { vec_capacity out.old ≤ vec_capacity out.new }
{
    let mut buffer = Buffer::new();
    let digits = buffer.format(number).as_bytes();
    put_joined(out, code, text, digits)
}
