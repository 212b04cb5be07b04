//! The target by which a question is asked.
ghost use Rattle.std.specs.Prelude.{◌≡◌, ◌++◌, IfOk, OnOk, string_bytes};
ghost use Rattle.percent_encoding.specs.Percent.{percent_encode};
ghost use Rattle.hd_lists.specs.Asking.{rest_text, query_text, target_text};
ghost use Rattle.hd_lists.specs.Requests.{request_text};
ghost use Rattle.hd_lists.specs.Questions.{map_key, map_question};

use crate::question::{Key, Question};
use itoa::Buffer;
use percent_encoding::{AsciiSet, NON_ALPHANUMERIC, ascii_set, percent_encode};
use std::alloc::{AllocError, Global};

/// The bytes of a name or a day that are escaped in a target: all but letters, digits and hyphens.
pub const ESCAPED: AsciiSet = ascii_set!(NON_ALPHANUMERIC.remove(b'-'));

/// The rest of a request, after its target.
pub const FIELDS: &[u8] = b" HTTP/1.1\r\nHost: holddesk\r\nConnection: close\r\n\r\n";

/// Bytes, with escapes for those that need one.
///
/// # Errors
/// Out of memory.
fn escaped(alloc: Global, bytes: &[u8]) -> Result<String, AllocError>
    ensures { IfOk result (λ text. string_bytes text ≡ percent_encode ESCAPED bytes.now) }
{
    let mut text = String::new(alloc);
    percent_encode(bytes, ESCAPED).append_to(&mut text)?;
    Ok(text)
}

/// Writes the rest of the path, after the folder.
///
/// # Errors
/// Out of memory.
fn write_rest(
    alloc: Global,
    out: &mut Vec<u8>,
    key: &Key<&[u8]>,
    part: &[u8],
) -> Result<(), AllocError>
    ensures { OnOk result (out.new.items
        ≡ out.old.items ++ rest_text (map_key (λ n. n.now) key.now) part.now) }
{
    match key {
        Key::Name(name) => {
            let name = escaped(alloc, name)?;
            out.push(b'/')?;
            out.extend_from_slice(name.as_bytes())?;
            out.extend_from_slice(part)?;
            Ok(())
        }
        Key::Number(number) => {
            let mut text = Buffer::new();
            let digits = text.format(*number).as_bytes();
            out.push(b'/')?;
            out.extend_from_slice(digits)?;
            out.extend_from_slice(part)?;
            Ok(())
        }
        Key::Day(_) | Key::Whole | Key::Most(_) => Ok(()),
    }
}

/// Writes the query.
///
/// # Errors
/// Out of memory.
fn write_query(
    alloc: Global,
    out: &mut Vec<u8>,
    key: &Key<&[u8]>,
    after: u64,
) -> Result<(), AllocError>
    ensures { OnOk result (out.new.items
        ≡ out.old.items ++ query_text (map_key (λ n. n.now) key.now) after) }
{
    let mut text = Buffer::new();
    let after = text.format(after).as_bytes();
    match key {
        Key::Name(_) | Key::Whole => {
            out.extend_from_slice(b"?after=")?;
            out.extend_from_slice(after)?;
            Ok(())
        }
        Key::Day(day) => {
            let day = escaped(alloc, day)?;
            out.extend_from_slice(b"?day=")?;
            out.extend_from_slice(day.as_bytes())?;
            out.extend_from_slice(b"&after=")?;
            out.extend_from_slice(after)?;
            Ok(())
        }
        Key::Most(most) => {
            let mut most_text = Buffer::new();
            let most = most_text.format(*most).as_bytes();
            out.extend_from_slice(b"?after=")?;
            out.extend_from_slice(after)?;
            out.extend_from_slice(b"&limit=")?;
            out.extend_from_slice(most)?;
            Ok(())
        }
        Key::Number(_) => Ok(()),
    }
}

/// The target by which a question is asked.
///
/// # Errors
/// Out of memory.
fn target_of(alloc: Global, question: &Question<&[u8]>) -> Result<Vec<u8>, AllocError>
    ensures { IfOk result (λ target.
        target.items ≡ target_text (map_question (λ n. n.now) question.now)) }
{
    let row = question.list.row();
    let mut target = Vec::new(alloc);
    target.extend_from_slice(b"/api/")?;
    target.extend_from_slice(row.folder)?;
    write_rest(alloc, &mut target, &question.key, row.part)?;
    write_query(alloc, &mut target, &question.key, question.after)?;
    Ok(target)
}

/// The request by which a question is asked.
///
/// # Errors
/// Out of memory.
pub fn request_of(alloc: Global, question: &Question<&[u8]>) -> Result<Vec<u8>, AllocError>
    ensures { IfOk result (λ request.
        request.items ≡ request_text (map_question (λ n. n.now) question.now)) }
{
    let target = target_of(alloc, question)?;
    let mut request = Vec::new(alloc);
    request.extend_from_slice(b"GET ")?;
    request.extend_from_slice(target.as_slice())?;
    request.extend_from_slice(FIELDS)?;
    Ok(request)
}
