//! Writing replies.
ghost use Rattle.std.specs.Prelude.{◌≡◌, ◌+◌, ◌<◌, ◌≤◌, ◌++◌, OnOk, OnErr, length, vec_len, vec_capacity};
ghost use Rattle.std.specs.List.{concat, flat_map};
ghost use Rattle.hd_message.specs.Part.{part_text};
ghost use Rattle.hd_message.specs.Replies.{login_text, reply_text, status_layout};

use crate::appending::append;
use crate::checkin_replies::write_checkin;
use crate::hold_replies::write_hold;
use crate::item_replies::write_item;
use crate::loan_replies::{checkout_front, renew_front, write_loan};
use crate::part::Part;
use crate::patron_replies::write_patron;
use crate::reply::{LoginReply, Reply, StatusReply};
use crate::sorter_replies::{write_sorter, write_sorter_item};
use std::alloc::{AllocError, Allocator};

/// BX of an ACS Status: which messages are supported. Nothing is claimed of its positions.
const SUPPORTED: &[u8] = b"NYYNYYYNNNYNNYYN";

/// The same where patron messages are read: of patron status, end of session and patron information too.
const SUPPORTED_WITH_PATRONS: &[u8] = b"YYYNYYYYYNYNNYYN";

/// Appends the text of a reply, without trailer and carriage return, whole or not at all (docs/protocol.md,
/// "Replies written").
///
/// # Errors
/// Out of memory: where `out` has room for the text there is none.
pub fn write<A: Allocator>(reply: &Reply<'_>, out: &mut Vec<u8, A>) -> Result<(), AllocError>
    ensures ok { OnOk result (out.new.items ≡ out.old.items ++ reply_text reply.now) }
    ensures err { OnErr result (out.new.items ≡ out.old.items) }

    // Where there is room it succeeds, and the room never shrinks.
    ensures full { OnErr result (vec_capacity out.old < vec_len out.old + length (reply_text reply.now)) }
    ensures capacity { vec_capacity out.old ≤ vec_capacity out.new }
{
    match reply {
        Reply::Login(reply) => append(out, &[Part::Text(login_text(reply))]),
        Reply::Status(reply) => append(out, &status(SUPPORTED, reply)),
        Reply::Checkout(reply) => write_loan(checkout_front(&reply.outcome), reply, out),
        Reply::Checkin(reply) => write_checkin(reply, out),
        Reply::Hold(reply) => write_hold(reply, out),
        Reply::Renew(reply) => write_loan(renew_front(&reply.outcome), reply, out),
        Reply::Item(reply) => write_item(reply, out),
        Reply::RequestScResend => append(out, &[Part::Text(b"96")]),
        Reply::StatusWithPatrons(reply) => append(out, &status(SUPPORTED_WITH_PATRONS, reply)),
        Reply::Patron(reply) => write_patron(reply, out),
        Reply::Sorter(reply) => write_sorter(reply, out),
        Reply::SorterItem(reply) => write_sorter_item(reply, out),
    }
}

/// The text of the reply to a login.
fn login_text(reply: &LoginReply) -> &'static [u8]
    ensures { result.now ≡ login_text reply.now }
{
    if reply.taken { b"941" } else { b"940" }
}

/// The parts of the reply to a status message, where these messages are supported.
fn status<'a>(messages: &'a [u8], reply: &StatusReply<'a>) -> [Part<'a>; 5]
    ensures { flat_map part_text result ≡ concat (status_layout messages.now reply.now) }
{
    [
        Part::Text(b"98YYYYNY100003"),
        Part::Text(reply.date),
        Part::Text(b"2.00"),
        Part::Field(*b"AO", reply.institution),
        Part::Field(*b"BX", messages),
    ]
}
