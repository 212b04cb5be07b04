//! Bytes as printable ASCII.
ghost use Rattle.std.specs.Prelude.{◌≡◌, ◌++◌, OnOk};
ghost use Rattle.hd_log.specs.Escapes.{escape, escaped, hex_digit, is_plain};

use std::alloc::AllocError;

/// Whether a byte is written as itself: printable ASCII, and neither `"` nor `\`.
fn is_plain(byte: u8) -> bool
    ensures { result ≡ is_plain byte }
{
    b' ' <= byte && byte <= b'~' && !(byte == b'"' || byte == b'\\')
}

/// The last digit of a number in base 16.
fn hex_digit(number: u8) -> u8
    ensures { result ≡ hex_digit number }
{
    let digit = number % 16;
    if digit < 10 {
        b'0' + digit
    } else {
        b'a' - 10 + digit
    }
}

/// Writes a byte: itself, or `\xHH`.
#[tactic(auto, unfolding(crate::specs::Escapes::escape))]
fn write_byte(out: &mut Vec<u8>, byte: u8) -> Result<(), AllocError>
    ensures { OnOk result (out.new.items ≡ out.old.items ++ escape byte) }
{
    if is_plain(byte) {
        out.push(byte)?;
        return Ok(());
    }
    let told = [b'\\', b'x', hex_digit(byte / 16), hex_digit(byte)];
    out.extend_from_slice(&told)
}

/// Writes bytes. Each that isn't written as itself is written as `\xHH`.
///
/// # Errors
/// Out of memory. A beginning may be written then.
pub(crate) fn write_escaped(out: &mut Vec<u8>, bytes: &[u8]) -> Result<(), AllocError>
    ensures { OnOk result (out.new.items ≡ out.old.items ++ escaped bytes.now) }
{
    for &byte in bytes {
        write_byte(out, byte)?;
    }
    Ok(())
}
