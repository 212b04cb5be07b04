//! Writing the replies to hold messages.
ghost use Rattle.std.specs.Prelude.{◌≡◌, ◌+◌, ◌<◌, ◌≤◌, ◌++◌, OnOk, OnErr, length, vec_len, vec_capacity};
ghost use Rattle.std.specs.List.{concat, flat_map};
ghost use Rattle.hd_message.specs.HoldReplies.{hold_layout, hold_text};
ghost use Rattle.hd_message.specs.Part.{part_text};
ghost use Rattle.hd_message.specs.declared.reply.HoldOutcome.TheVariants as OfHold;

use crate::appending::append;
use crate::days::day_text;
use crate::part::Part;
use crate::reply::{HoldOutcome, HoldReply};
use hd_date::Day;
use hd_rules::Refusal;
use std::alloc::{AllocError, Allocator};

/// Appends the text of the reply to a hold message, whole or not at all.
pub(crate) fn write_hold<A: Allocator>(
    reply: &HoldReply<'_>,
    out: &mut Vec<u8, A>,
) -> Result<(), AllocError>
    ensures ok { OnOk result (out.new.items ≡ out.old.items ++ hold_text reply.now) }
    ensures err { OnErr result (out.new.items ≡ out.old.items) }
    ensures full { OnErr result (vec_capacity out.old < vec_len out.old + length (hold_text reply.now)) }
    ensures capacity { vec_capacity out.old ≤ vec_capacity out.new }
{
    match reply.outcome {
        HoldOutcome::Held {
            available,
            expiry,
            position,
            pickup,
            title,
        } => append(
            out,
            &hold_accepted(reply, available, expiry, position, pickup, title),
        ),
        HoldOutcome::Deleted { title } => append(out, &deletion_accepted(reply, title)),
        HoldOutcome::Cancelled { title, number } => {
            append(out, &hold_cancelled(reply, title, number))
        }
        HoldOutcome::Refused { title, refusal } => append(
            out,
            &hold_refused(reply, title, refusal),
        ),
    }
}

/// The parts of the reply to an add or a change that is accepted.
fn hold_accepted<'a>(
    reply: &HoldReply<'a>,
    available: bool,
    expiry: Option<&'a Day>,
    position: u64,
    pickup: &'a [u8],
    title: &'a [u8],
) -> [Part<'a>; 10]
    ensures { flat_map part_text result
        ≡ concat (hold_layout reply.now
        (OfHold.Held available expiry.entry position pickup.entry title.entry)) }
{
    [
        Part::Text(b"161"),
        Part::YesNo(available),
        Part::Text(reply.date),
        Part::Expiry(expiry.map(day_text)),
        Part::Position(position),
        Part::Field(*b"BS", pickup),
        Part::Field(*b"AO", reply.institution),
        Part::Field(*b"AA", reply.patron),
        Part::Optional(*b"AB", reply.copy),
        Part::Field(*b"AJ", title),
    ]
}

/// The parts of the reply to a delete that is accepted.
fn deletion_accepted<'a>(reply: &HoldReply<'a>, title: &'a [u8]) -> [Part<'a>; 6]
    ensures { flat_map part_text result ≡ concat (hold_layout reply.now (OfHold.Deleted title.entry)) }
{
    [
        Part::Text(b"161N"),
        Part::Text(reply.date),
        Part::Field(*b"AO", reply.institution),
        Part::Field(*b"AA", reply.patron),
        Part::Optional(*b"AB", reply.copy),
        Part::Field(*b"AJ", title),
    ]
}

/// The parts of the reply to a hold message that cancels another.
fn hold_cancelled<'a>(reply: &HoldReply<'a>, title: &'a [u8], number: u64) -> [Part<'a>; 7]
    ensures { flat_map part_text result
        ≡ concat (hold_layout reply.now (OfHold.Cancelled title.entry number)) }
{
    [
        Part::Text(b"161N"),
        Part::Text(reply.date),
        Part::Field(*b"AO", reply.institution),
        Part::Field(*b"AA", reply.patron),
        Part::Optional(*b"AB", reply.copy),
        Part::Field(*b"AJ", title),
        Part::Cancelled(number),
    ]
}

/// The parts of the reply to a hold message that is refused.
fn hold_refused<'a>(
    reply: &HoldReply<'a>,
    title: Option<&'a [u8]>,
    refusal: Refusal,
) -> [Part<'a>; 7]
    ensures { flat_map part_text result
        ≡ concat (hold_layout reply.now (OfHold.Refused title.entry refusal)) }
{
    [
        Part::Text(b"160N"),
        Part::Text(reply.date),
        Part::Field(*b"AO", reply.institution),
        Part::Field(*b"AA", reply.patron),
        Part::Optional(*b"AB", reply.copy),
        Part::Optional(*b"AJ", title),
        Part::Refused(refusal),
    ]
}
