//! Writing a reply where there is room for it.
ghost use Rattle.std.specs.Prelude.{◌+◌, ◌≤◌, length, vec_len, vec_capacity};
ghost use Rattle.hd_message.specs.Lengths.{IsShort};
ghost use Rattle.hd_message.specs.Replies.{reply_text};
ghost use Rattle.hd_exchange.specs.Works.{Extends};

use hd_message::{Reply, replies_are_short, write};
use std::alloc::Allocator;

/// Appends the text of a reply that prints no more than it may, where there is room for the longest of these.
pub(crate) fn write_reply<A: Allocator>(reply: &Reply<'_>, out: &mut Vec<u8, A>)
    requires short { IsShort reply.now }
    requires room { vec_len out.old + 2038 ≤ vec_capacity out.old }
    ensures text { Extends out.old out.new (reply_text reply.now) }
    ensures short { length (reply_text reply.now) ≤ 2038 }
{
    replies_are_short();
    match write(reply, out) {
        Ok(()) => {}
        Err(_) => unreachable!(),
    }
}
