//! What holds of replies.
ghost use Rattle.std.specs.Prelude.{◌≡◌, ◌<◌, ◌^◌, length};
ghost use Rattle.httparse.specs.Grammar.{ReadsResponse};
ghost use Rattle.hd_http.specs.Heads.{head_of};
ghost use Rattle.hd_http.specs.Replies.{reply_text, sent_of};

use crate::page::Page;
use crate::reply::{Media, Method, Status};

/// A reply's text reads as one response: a head that tells the body's length, and what is sent of the body.
pub fn whole_reply(page: &Page<'_>, method: Method, status: Status, media: Media, body: &[u8])
    ensures { ReadsResponse (reply_text page.now.policy.now method status media body.now)
        (head_of page.now.policy.now status media (length body.now)) (sent_of method body.now) }
{
    let _ = page;
    let _ = method;
    let _ = status;
    let _ = media;
    let _ = length_of(body);
}

/// How many bytes a body has.
fn length_of(body: &[u8]) -> usize
    ensures value { result ≡ length body.now }
    ensures within { result < 2 ^ 64 }
{
    body.len()
}
