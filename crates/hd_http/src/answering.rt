//! The answer to a request.
ghost use Rattle.std.specs.Prelude.{◌≡◌, ◌<◌, ◌≤◌, IfOk, List, ℕ, OnOk, ◌++◌, length, map, take};
ghost use Rattle.httparse.specs.Grammar.{HasNoRequest, ReadsRequest, RequestHead};
ghost use Rattle.httparse.specs.Spans.{IsRequestWithin, header_bytes, span_bytes};
ghost use Rattle.hd_http.specs.Answered.{IsAnswered, IsUnread, Answers, AnswersParts, sequel_of, too_long};
ghost use Rattle.hd_http.specs.Asking.{method_of, told_by};
ghost use Rattle.hd_http.specs.Replies.{refusal, reply_text};
ghost use Rattle.hd_http.specs.Seen.{seen};

use crate::asking::{Told, is_stop, method_of, refused_fields, refused_method, told_by};
use crate::page::Page;
use crate::reply::{Method, Reply, Status, refuse, write_reply};
use crate::showing::show_target;
use crate::view::View;
use httparse::spans::{EMPTY_HEADER_SPAN, HeaderSpan, RequestSpans, parse_request};
use httparse::{Error, Status as Parsed};
use std::alloc::{AllocError, Global};

/// The most fields of a request's head.
pub const FIELDS: usize = 64;

/// What is to follow a reply.
#[derive(Clone, Copy, Debug, PartialEq, Eq)]
pub enum Sequel {
    /// Other requests.
    GoOn,
    /// A stop: the reply says that it is under way.
    Stop,
}

/// What is to follow a reply of this status.
fn sequel_of(status: Status) -> Sequel
    ensures { result ≡ sequel_of status }
{
    match status {
        Status::Accepted => Sequel::Stop,
        _ => Sequel::GoOn,
    }
}

/// The reply to a request of these parts.
fn reply_to_parts<V: View>(
    alloc: Global,
    page: &Page<'_>,
    view: &V,
    method: &[u8],
    target: &[u8],
    told: Told,
) -> Result<Reply, AllocError>
    ensures { IfOk result (λ r. AnswersParts
        (record { page = page.now.text.now; shows = V.shows view.now; tells = V.tells view.now })
        method.now target.now told (seen r)) }
{
    let stop = is_stop(target);
    if let Some(status) = refused_method(stop, method) {
        return refuse(alloc, status);
    }
    if let Some(status) = refused_fields(stop, told) {
        return refuse(alloc, status);
    }
    if stop {
        return refuse(alloc, Status::Accepted);
    }
    show_target(alloc, page, view, target)
}

/// The reply to a request whose head is at these places, and whether its body is sent.
fn reply_to_head<V: View>(
    alloc: Global,
    request: &[u8],
    page: &Page<'_>,
    view: &V,
    head: &RequestSpans,
    headers: &[HeaderSpan],
) -> Result<(Method, Reply), AllocError>
    requires { IsRequestWithin request.now headers.now head.now }
    ensures method { IfOk result (λ r. r.0 ≡ method_of (span_bytes request.now head.now.method)) }
    ensures parts { IfOk result (λ r. AnswersParts
        (record { page = page.now.text.now; shows = V.shows view.now; tells = V.tells view.now })
        (span_bytes request.now head.now.method) (span_bytes request.now head.now.path)
        (told_by (map (header_bytes request.now) (take head.now.headers headers.now)))
        (seen r.1)) }
{
    let method = head.method.of(request);
    let target = head.path.of(request);
    let told = told_by(request, &headers[..head.headers]);
    let reply = reply_to_parts(alloc, page, view, method, target, told)?;
    Ok((method_of(method), reply))
}

/// The reply to a request, and whether its body is sent.
#[tactic(auto, using(crate::proofs::Fields::no_other_fault))]
fn reply_to<V: View>(
    alloc: Global,
    request: &[u8],
    page: &Page<'_>,
    view: &V,
) -> Result<(Method, Reply), AllocError>
    ensures read { IfOk result (λ r. (head : RequestHead) (rest : List ℕ) → ReadsRequest request.now head rest
        → length head.fields ≤ FIELDS
        → Answers (record { page = page.now.text.now; shows = V.shows view.now; tells = V.tells view.now })
        head r.0 (seen r.1)) }
    ensures over { IfOk result (λ r. (head : RequestHead) (rest : List ℕ) → ReadsRequest request.now head rest
        → FIELDS < length head.fields → seen r.1 ≡ refusal Status.FieldsTooLarge) }
    ensures unread { IfOk result (λ r. HasNoRequest request.now → IsUnread request.now (seen r.1)) }
{
    let mut headers = [EMPTY_HEADER_SPAN; FIELDS];
    match parse_request(request, &mut headers) {
        Ok(Parsed::Complete(head)) => { reply_to_head(alloc, request, page, view, &head, &headers) }
        Err(Error::TooManyHeaders) => Ok((Method::Get, refuse(alloc, Status::FieldsTooLarge)?)),
        Ok(Parsed::Partial) | Err(_) => Ok((Method::Get, refuse(alloc, Status::BadRequest)?)),
    }
}

/// Writes the answer to a request, behind what `out` has, and says what is to follow.
///
/// A request is a head, with its empty line. What stands behind it isn't looked at.
///
/// # Errors
/// Where memory runs out. What `out` has then isn't said.
pub fn answer<V: View>(
    alloc: Global,
    request: &[u8],
    page: &Page<'_>,
    view: &V,
    out: &mut Vec<u8>,
) -> Result<Sequel, AllocError>
    ensures { IfOk result (λ sequel. IsAnswered request.now page.now.policy.now
        (record { page = page.now.text.now; shows = V.shows view.now; tells = V.tells view.now })
        sequel out.old.items out.new.items) }
{
    let (method, reply) = reply_to(alloc, request, page, view)?;
    write_reply(out, page.policy, method, &reply)?;
    Ok(sequel_of(reply.status))
}

/// Writes the answer to a request whose head is longer than may be.
///
/// # Errors
/// As `answer`.
pub fn answer_too_long(alloc: Global, page: &Page<'_>, out: &mut Vec<u8>) -> Result<(), AllocError>
    ensures { OnOk result (out.new.items ≡ out.old.items ++ too_long page.now.policy.now) }
{
    let reply = refuse(alloc, Status::FieldsTooLarge)?;
    write_reply(out, page.policy, Method::Get, &reply)
}
