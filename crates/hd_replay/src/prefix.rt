//! The session of a line of input.
ghost use Rattle.std.specs.Prelude.{◌≡◌, ◌≤◌, ◌∷◌, ◌++◌, [], ℕ, Contains, IfNone, IfSome, decimal};
ghost use Rattle.hd_replay.specs.Inputs.{IsLineOf, IsSessionNumber, InputMessage};

use memchr::memchr;

/// How many sessions an input may have; they are numbered from 1.
pub(crate) const SESSIONS: usize = 64;

/// The session's number that a line of input begins with, and the message behind the blank.
///
/// The number is 1 to 64 without leading zero, and one blank follows it.
pub(crate) fn session_of(line: &[u8]) -> Option<(usize, &[u8])>
    ensures found { IfSome result (λ found.
        IsLineOf line.now (record { session = found.0; text = found.1.now })) }
    ensures none { IfNone result ((message : InputMessage) → ¬ IsLineOf line.now message) }
{
    let (digits, message) = at_blank(line)?;
    Some((number_of(digits)?, message))
}

/// What stands before the first blank of a line, and what behind it.
fn at_blank(line: &[u8]) -> Option<(&[u8], &[u8])>
    ensures found { IfSome result (λ parts.
        (line.now ≡ parts.0.now ++ 32 ∷ parts.1.now) × (¬ Contains parts.0.now 32)) }
    ensures none { IfNone result (¬ Contains line.now 32) }
{
    let blank = memchr(b' ', line)?;
    Some((&line[..blank], &line[blank + 1..]))
}

/// The session's number that is written so: one or two digits, the first of which is no zero.
fn number_of(digits: &[u8]) -> Option<usize>
    ensures found { IfSome result (λ number. IsSessionNumber number × (decimal number ≡ digits.now)) }
    ensures none { IfNone result ((number : ℕ) → IsSessionNumber number → ¬ (decimal number ≡ digits.now)) }
{
    let number = match digits {
        [ones @ b'1'..=b'9'] => usize::from(*ones - b'0'),
        [tens @ b'1'..=b'9', ones @ b'0'..=b'9'] => {
            10 * usize::from(*tens - b'0') + usize::from(*ones - b'0')
        }
        _ => return None,
    };
    if number > SESSIONS {
        return None;
    }
    Some(number)
}
