//! Names and numbers of a catalogue file.
ghost use Rattle.std.specs.Prelude.{◌≡◌, ◌≤◌, IfSome};
ghost use Rattle.hd_rules.specs.declared.limits.TheConstants.{MOST_COMMANDS};
ghost use Rattle.std.specs.List.{list_all};
ghost use Rattle.hd_catalogue.specs.Text.{command_limit_to, is_letter, says_local, is_long, is_name};
ghost use Rattle.hd_catalogue.specs.Text.{is_name_byte, is_priority, number_of_digits, number_to, offset_to};

use hd_date::OffsetMinutes;

/// The longest line, its end not counted.
const LONGEST_LINE: usize = 1024;

/// The longest name.
const LONGEST_NAME: usize = 60;

/// Most digits of a number: more than any limit has.
const MOST_DIGITS: usize = 9;

/// Whether a line, without its end, is longer than a line may be.
pub fn is_long(line: &[u8]) -> bool
    ensures { result ≡ is_long line.now }
{
    line.len() > LONGEST_LINE
}

/// Whether a line's first value is this letter.
pub fn is_letter(letter: u8, kind: &[u8]) -> bool
    ensures { result ≡ is_letter letter kind.now }
{
    kind == [letter].as_slice()
}

/// Whether these bytes are a name.
pub fn is_name(bytes: &[u8]) -> bool
    ensures { result ≡ is_name bytes.now }
{
    if bytes.is_empty() || bytes.len() > LONGEST_NAME {
        return false;
    }
    are_name_bytes(bytes)
}

/// Whether a name may have these bytes.
fn are_name_bytes(bytes: &[u8]) -> bool
    ensures { result ≡ list_all is_name_byte bytes.now }
{
    bytes.iter().all(|byte| is_name_byte(*byte))
}

/// Whether a name may have this byte.
fn is_name_byte(byte: u8) -> bool
    ensures { result ≡ is_name_byte byte }
{
    (32..=126).contains(&byte) && byte != b'|' || byte >= 128
}

/// The number that digits write without leading zeros, if there are at most nine.
fn digits(digits: &[u8]) -> Option<u32>
    ensures { result ≡ number_of_digits digits.now }
{
    if digits.is_empty() || digits.len() > MOST_DIGITS || (digits.len() > 1 && digits[0] == b'0') {
        return None;
    }
    let mut value = 0u32;
    for digit in digits {
        if !digit.is_ascii_digit() {
            return None;
        }
        value = 10 * value + u32::from(*digit - b'0');
    }
    Some(value)
}

/// The number that these bytes write, if it is at most `most`.
pub fn number(most: u32, bytes: &[u8]) -> Option<u32>
    ensures value { result ≡ number_to most bytes.now }
    ensures within { IfSome result (λ number. number ≤ most) }
{
    match digits(bytes) {
        Some(number) if number <= most => Some(number),
        _ => None,
    }
}

/// The offset of local time that these bytes write, in minutes.
#[tactic(auto, unfolding(crate::specs::Text::is_offset, crate::specs::Text::offset_of))]
pub(crate) fn offset(bytes: &[u8]) -> Option<OffsetMinutes>
    ensures { result ≡ offset_to bytes.now }
{
    if !bytes.is_empty() && bytes[0] == b'-' {
        let (_, digits) = bytes.split_at(1);
        match number(1439, digits) {
            Some(minutes) if minutes > 0 => OffsetMinutes::new(-(minutes as i16)),
            _ => None,
        }
    } else {
        let minutes = number(1439, bytes)?;
        OffsetMinutes::new(minutes as i16)
    }
}

/// The limit of commands that these bytes write.
#[tactic(auto, unfolding(crate::specs::Text::is_command_limit))]
pub(crate) fn command_limit(bytes: &[u8]) -> Option<u64>
    ensures value { result ≡ command_limit_to bytes.now }
    ensures some { IfSome result (λ number. 1 ≤ number) }
    ensures within { IfSome result (λ number. number ≤ MOST_COMMANDS) }
{
    match number(1_000_000, bytes) {
        Some(number) if number > 0 => Some(u64::from(number)),
        _ => None,
    }
}

/// Whether a title's priority is local.
pub(crate) fn is_local(priority: &[u8]) -> bool
    ensures { result ≡ says_local priority.now }
{
    priority == b"L".as_slice()
}

/// Whether these bytes are a priority.
pub(crate) fn is_priority(priority: &[u8]) -> bool
    ensures { result ≡ is_priority priority.now }
{
    is_local(priority) || priority == b"N".as_slice()
}
