//! What a server answers.
ghost use Rattle.std.specs.Prelude.{◌≡◌, All, IfNone, IfOk, IfSome, length, map};
ghost use Rattle.hd_door_client.specs.Answers.{IsAnswerIn, IsNoNumber, IsNumberOf, TellsLength, is_length};
ghost use Rattle.httparse.specs.Spans.{IsHeaderWithin, header_bytes};

use crate::fault::AskFault;
use httparse::Status;
use httparse::spans::{EMPTY_HEADER_SPAN, HeaderSpan, parse_response};
use std::alloc::Global;
use std::io::Read;

/// The most bytes of an answer: a page of rows has far fewer.
const MOST: u64 = 16_777_216;

/// The most fields of an answer's head.
const FIELDS: usize = 64;

/// An answer.
#[derive(Drop)]
pub struct Answer {
    /// Its status, as 200.
    pub status: u16,
    pub body: Vec<u8>,
}

/// Reads an answer, to the end of what comes.
///
/// # Errors
/// `Unreadable` where reading fails, or what comes isn't one whole answer, or has more than 16 MiB; `Memory`.
pub fn read_answer<R: Read + Drop>(alloc: Global, from: R) -> Result<Answer, AskFault> {
    let mut bytes = Vec::new(alloc);
    if from.take(MOST).read_to_end(&mut bytes).is_err() {
        return Err(AskFault::Unreadable);
    }
    answer_of(alloc, bytes.as_slice())
}

/// The answer that these bytes are: one response, whose body has the length that its head tells.
///
/// # Errors
/// `Unreadable` where they aren't one; `Memory`.
pub fn answer_of(alloc: Global, bytes: &[u8]) -> Result<Answer, AskFault>
    ensures { IfOk result (IsAnswerIn bytes.now) }
{
    let mut fields = [EMPTY_HEADER_SPAN; FIELDS];
    let Ok(Status::Complete(head)) = parse_response(bytes, &mut fields) else {
        return Err(AskFault::Unreadable);
    };
    let (_, body) = bytes.split_at(head.len);
    if length_in(bytes, &fields[..head.headers]) != Some(body.len() as u64) {
        return Err(AskFault::Unreadable);
    }
    Ok(Answer {
        status: head.code,
        body: Vec::from_slice(alloc, body)?,
    })
}

/// The length of the body that a head tells, if it tells one.
fn length_in(bytes: &[u8], fields: &[HeaderSpan]) -> Option<u64>
    requires { All (IsHeaderWithin (length bytes.now)) fields.now }
    ensures { IfSome result (TellsLength (map (header_bytes bytes.now) fields.now)) }
{
    for field in fields {
        if is_length(field.name.of(bytes)) {
            return number_in(field.value.of(bytes));
        }
    }
    None
}

/// Whether a field of this name tells the length of a body, whatever the case of its letters.
fn is_length(name: &[u8]) -> bool
    ensures { result ≡ is_length name.now }
{
    b"content-length".eq_ignore_ascii_case(name)
}

/// The number that a text is, if it is one that has room.
pub(crate) fn number_in(text: &[u8]) -> Option<u64>
    ensures some { IfSome result (IsNumberOf text.now) }
    ensures none { IfNone result (IsNoNumber text.now) }
{
    match str::from_utf8(text) {
        Ok(text) => text.parse::<u64>().ok(),
        Err(_) => None,
    }
}
