//! A reply, and its text.
ghost use Rattle.std.specs.Prelude.{◌≡◌, ◌++◌, IfOk, OnOk};
ghost use Rattle.hd_http.specs.Replies.{allow_text, fields_text, length_text, media_text, policy_text};
ghost use Rattle.hd_http.specs.Replies.{refusal, reply_text, sent_of, start_text, status_text, words};
ghost use Rattle.hd_http.specs.Seen.{seen};

use hd_json::write_number;
use std::alloc::{AllocError, Global};

/// How a request is answered.
#[derive(Clone, Copy, Debug, PartialEq, Eq)]
pub enum Status {
    /// 200
    Ok,
    /// 202: a stop is under way.
    Accepted,
    /// 400: no head can be read, a query isn't of the form, or there is no such day.
    BadRequest,
    /// 403: a page in a browser asks for a stop.
    Forbidden,
    /// 404: nothing has this path or name.
    NotFound,
    /// 405, where GET and HEAD are allowed.
    OnlyRead,
    /// 405, where POST is allowed.
    OnlyPosted,
    /// 413: a body follows.
    TooLarge,
    /// 431: the head is too long, or has too many fields.
    FieldsTooLarge,
    /// 503: the library can't answer now.
    Unavailable,
}

/// What a body is.
#[derive(Clone, Copy, Debug, PartialEq, Eq)]
pub enum Media {
    /// The page.
    Html,
    /// Rows.
    Json,
    /// Counts, for Prometheus.
    Metrics,
    /// Words.
    Plain,
}

/// Whether a reply's body is sent.
#[derive(Clone, Copy, Debug, PartialEq, Eq)]
pub enum Method {
    /// It is.
    Get,
    /// It isn't, and its length is told all the same.
    Head,
}

/// A reply.
#[derive(Drop)]
pub(crate) struct Reply {
    pub status: Status,
    pub media: Media,
    pub body: Vec<u8>,
}

impl Status {
    /// The number and the phrase.
    fn text(self) -> &'static [u8]
        ensures { result.now ≡ status_text self }
    {
        match self {
            Status::Ok => b"200 OK",
            Status::Accepted => b"202 Accepted",
            Status::BadRequest => b"400 Bad Request",
            Status::Forbidden => b"403 Forbidden",
            Status::NotFound => b"404 Not Found",
            Status::OnlyRead | Status::OnlyPosted => b"405 Method Not Allowed",
            Status::TooLarge => b"413 Content Too Large",
            Status::FieldsTooLarge => b"431 Request Header Fields Too Large",
            Status::Unavailable => b"503 Service Unavailable",
        }
    }

    /// The field that says which methods are allowed, where another came.
    fn allow(self) -> &'static [u8]
        ensures { result.now ≡ allow_text self }
    {
        match self {
            Status::OnlyRead => b"Allow: GET, HEAD\r\n",
            Status::OnlyPosted => b"Allow: POST\r\n",
            _ => b"",
        }
    }
}

impl Media {
    /// The type.
    fn text(self) -> &'static [u8]
        ensures { result.now ≡ media_text self }
    {
        match self {
            Media::Html => b"text/html; charset=utf-8",
            Media::Json => b"application/json",
            Media::Metrics => b"text/plain; version=0.0.4; charset=utf-8",
            Media::Plain => b"text/plain; charset=utf-8",
        }
    }
}

/// The last fields of each reply, and the empty line.
pub const FIXED: &[u8] = b"Cache-Control: no-store\r\n\
        X-Content-Type-Options: nosniff\r\n\
        Referrer-Policy: no-referrer\r\n\
        Connection: close\r\n\r\n";

/// A reply with these words and a line feed.
pub(crate) fn say(alloc: Global, status: Status, text: &[u8]) -> Result<Reply, AllocError>
    ensures { IfOk result (λ r. seen r ≡ words status text.now) }
{
    let mut body = Vec::from_slice(alloc, text)?;
    body.extend_from_slice(b"\n")?;
    Ok(Reply {
        status,
        media: Media::Plain,
        body,
    })
}

/// A reply that says its status in words.
pub(crate) fn refuse(alloc: Global, status: Status) -> Result<Reply, AllocError>
    ensures { IfOk result (λ r. seen r ≡ refusal status) }
{
    say(alloc, status, status.text())
}

/// Writes a reply's start, up to its length.
#[tactic(auto, unfolding(crate::specs::Replies::start_text))]
fn write_start(out: &mut Vec<u8>, status: Status, media: Media) -> Result<(), AllocError>
    ensures { OnOk result (out.new.items ≡ out.old.items ++ start_text status media) }
{
    out.extend_from_slice(b"HTTP/1.1 ")?;
    out.extend_from_slice(status.text())?;
    out.extend_from_slice(b"\r\nContent-Type: ")?;
    out.extend_from_slice(media.text())
}

/// Writes a reply's length.
#[tactic(auto, unfolding(crate::specs::Replies::length_text))]
fn write_length(out: &mut Vec<u8>, length: usize) -> Result<(), AllocError>
    ensures { OnOk result (out.new.items ≡ out.old.items ++ length_text length) }
{
    out.extend_from_slice(b"\r\nContent-Length: ")?;
    write_number(out, length as u64)?;
    out.extend_from_slice(b"\r\n")?;
    Ok(())
}

/// Writes the policy.
#[tactic(auto, unfolding(crate::specs::Replies::policy_text))]
fn write_policy(out: &mut Vec<u8>, policy: &[u8]) -> Result<(), AllocError>
    ensures { OnOk result (out.new.items ≡ out.old.items ++ policy_text policy.now) }
{
    out.extend_from_slice(b"Content-Security-Policy: ")?;
    out.extend_from_slice(policy)?;
    out.extend_from_slice(b"\r\n")?;
    Ok(())
}

/// Writes a reply's length, and the fields behind it.
#[tactic(auto, unfolding(crate::specs::Replies::fields_text))]
fn write_fields(
    out: &mut Vec<u8>,
    policy: &[u8],
    status: Status,
    length: usize,
) -> Result<(), AllocError>
    ensures { OnOk result (out.new.items ≡ out.old.items ++ fields_text policy.now status length) }
{
    write_length(out, length)?;
    out.extend_from_slice(status.allow())?;
    write_policy(out, policy)?;
    out.extend_from_slice(FIXED)
}

/// What is sent of a body.
fn sent(method: Method, body: &[u8]) -> &[u8]
    ensures { result.now ≡ sent_of method body.now }
{
    match method {
        Method::Get => body,
        Method::Head => &body[..0],
    }
}

/// Writes a reply. With HEAD its body is left out, and its length is told all the same.
#[tactic(auto, unfolding(crate::specs::Replies::reply_text))]
pub(crate) fn write_reply(
    out: &mut Vec<u8>,
    policy: &[u8],
    method: Method,
    reply: &Reply,
) -> Result<(), AllocError>
    ensures { OnOk result (out.new.items ≡ out.old.items
        ++ reply_text policy.now method reply.now.status reply.now.media reply.now.body.items) }
{
    write_start(out, reply.status, reply.media)?;
    write_fields(out, policy, reply.status, reply.body.len())?;
    out.extend_from_slice(sent(method, reply.body.as_slice()))
}
