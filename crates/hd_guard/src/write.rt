//! Writing a trailer.
ghost use Rattle.std.specs.Prelude.{◌≡◌, ◌+◌, ◌<◌, ◌≤◌, ◌++◌, IfNone, IfSome, OnOk, OnErr, drop, vec_len};
ghost use Rattle.std.specs.Prelude.{vec_capacity};
ghost use Rattle.hd_guard.specs.Check.{four_hex_digits, upper_digit};
ghost use Rattle.hd_guard.specs.Sequence.{EndsInSequence, sequence};
ghost use Rattle.hd_guard.specs.Trailer.{EndsRight, IsChecked, trailer_len, trailer_text};

use crate::check::checksum;
use crate::digit::Seq;
use std::alloc::{AllocError, Allocator};

/// The bytes of a sequence digit: `AY` and the digit.
const SEQUENCE_LEN: usize = 3;

/// The bytes of a check number: `AZ` and four digits.
const CHECK_LEN: usize = 6;

/// Adds its trailer to the text that begins at `from` in `out`: `AY` and the sequence digit where one
/// is given, `AZ`, and the check number that makes the text right, in four upper-case hexadecimal
/// digits (SIP2 2.00, checksum and sequence number). No carriage return is added.
///
/// At most 9 bytes are added, and without a digit 6. Where memory for them is refused nothing is changed.
pub fn seal<A: Allocator>(
    out: &mut Vec<u8, A>,
    from: usize,
    seq: Option<Seq>,
) -> Result<(), AllocError>
    requires { from ≤ vec_len out.old }
    ensures appended { OnOk result
        (out.new.items ≡ out.old.items ++ trailer_text (drop from out.old.items) seq) }
    ensures right { OnOk result
        (EndsRight (drop from out.new.items) (drop from out.old.items ++ sequence seq)) }
    ensures err { OnErr result (out.new.items ≡ out.old.items) }

    // Sealed with no digit, the text must not end in that of a digit itself.
    ensures read_back { OnOk result (IfNone seq (¬ EndsInSequence (drop from out.old.items)) →
        IsChecked (drop from out.new.items) (drop from out.old.items) seq) }

    // Where there is room it succeeds, and the room never shrinks.
    ensures full { OnErr result (vec_capacity out.old < vec_len out.old + trailer_len seq) }
    ensures capacity { vec_capacity out.old ≤ vec_capacity out.new }
{
    let len = if seq.is_some() {
        SEQUENCE_LEN + CHECK_LEN
    } else {
        CHECK_LEN
    };
    out.reserve(len)?;
    put_trailer(out, from, seq);
    Ok(())
}

/// Adds the trailer of the text that begins at `from`, for which there is room.
fn put_trailer<A: Allocator>(out: &mut Vec<u8, A>, from: usize, seq: Option<Seq>)
    requires start { from ≤ vec_len out.old }
    requires room { vec_len out.old + trailer_len seq ≤ vec_capacity out.old }
    ensures text { out.new.items ≡ out.old.items ++ trailer_text (drop from out.old.items) seq }
    ensures digit { IfSome seq (λ d. d < 10) }
    ensures capacity { vec_capacity out.old ≤ vec_capacity out.new }
{
    put_sequence(out, seq);
    out.extend_from_slice(b"AZ").unwrap();
    let number = checksum(&out[from..]);
    put_number(out, number);
}

/// Adds the text of a sequence digit, for which there is room.
fn put_sequence<A: Allocator>(out: &mut Vec<u8, A>, seq: Option<Seq>)
    requires { vec_len out.old + trailer_len seq ≤ vec_capacity out.old + 6 }
    ensures text { out.new.items ≡ out.old.items ++ sequence seq }
    ensures digit { IfSome seq (λ d. d < 10) }
    ensures capacity { vec_capacity out.old ≤ vec_capacity out.new }
{
    if let Some(seq) = seq {
        out.extend_from_slice(&[b'A', b'Y', b'0' + seq.digit()])
            .unwrap();
    }
}

/// Adds a number in four hexadecimal digits, for which there is room.
fn put_number<A: Allocator>(out: &mut Vec<u8, A>, number: u16)
    requires { vec_len out.old + 4 ≤ vec_capacity out.old }
    ensures text { out.new.items ≡ out.old.items ++ four_hex_digits number }
    ensures capacity { vec_capacity out.old ≤ vec_capacity out.new }
{
    let digits = [
        upper(number / 4096),
        upper(number / 256 % 16),
        upper(number / 16 % 16),
        upper(number % 16),
    ];
    out.extend_from_slice(&digits).unwrap();
}

/// The upper-case digit of a number below 16.
fn upper(digit: u16) -> u8
    requires { digit < 16 }
    ensures { result ≡ upper_digit digit }
{
    if digit < 10 {
        b'0' + digit as u8
    } else {
        b'A' + (digit as u8 - 10)
    }
}
