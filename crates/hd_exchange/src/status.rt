//! Status messages (99).
ghost use Rattle.std.specs.Prelude.{◌≡◌, ◌+◌, ◌≤◌, ℕ, List, length, vec_len, vec_capacity};
ghost use Rattle.hd_message.specs.Lengths.{IsName, IsPrintedDate, IsShort};
ghost use Rattle.hd_message.specs.Replies.{reply_text};
ghost use Rattle.hd_exchange.specs.Answers.{SaysStatus, status_text};
ghost use Rattle.hd_exchange.specs.Works.{Extends};

use crate::writing::write_reply;
use hd_catalogue::Catalogue;
use hd_date::Stamp18;
use hd_message::{Profile, Reply, StatusReply};
use std::alloc::Allocator;

/// Appends the reply to a status message: it says whether patron messages are read.
pub(crate) fn write_status<A: Allocator + Copy>(
    catalogue: &Catalogue<A>,
    profile: Profile,
    now: &Stamp18,
    out: &mut Vec<u8, A>,
)
    requires room { vec_len out.old + 2038 ≤ vec_capacity out.old }
    ensures { (text : List ℕ)
        × SaysStatus catalogue.now profile now.now text
        × Extends out.old out.new text
        × (length text ≤ 2038) }
{
    let date = now.print();
    let reply = StatusReply {
        date: date.as_slice(),
        institution: catalogue.institution(),
    };
    write_reply(&told_status(profile, reply), out);
}

/// The reply of this status: it says whether patron messages are read.
fn told_status(profile: Profile, status: StatusReply<'_>) -> Reply<'_>
    requires { IsPrintedDate status.date.now × IsName status.institution.now }
    ensures text { reply_text result ≡ status_text profile status.entry }
    ensures short { IsShort result }
{
    if profile.patron_messages {
        Reply::StatusWithPatrons(status)
    } else {
        Reply::Status(status)
    }
}
