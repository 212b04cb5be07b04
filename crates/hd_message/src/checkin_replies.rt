//! Writing the replies to checkins.
ghost use Rattle.std.specs.Prelude.{◌≡◌, ◌+◌, ◌<◌, ◌≤◌, ◌++◌, OnOk, OnErr, length, vec_len, vec_capacity};
ghost use Rattle.std.specs.List.{concat, flat_map};
ghost use Rattle.hd_message.specs.CheckinReplies.{checkin_layout, checkin_text, is_alert, whereabouts_field};
ghost use Rattle.hd_message.specs.Part.{part_text};
ghost use Rattle.hd_message.specs.declared.reply.CheckinOutcome.TheVariants as OfCheckin;

use crate::appending::append;
use crate::part::Part;
use crate::reply::{CheckinOutcome, CheckinReply, Whereabouts};
use hd_rules::Refusal;
use std::alloc::{AllocError, Allocator};

/// Appends the text of the reply to a checkin, whole or not at all.
pub(crate) fn write_checkin<A: Allocator>(
    reply: &CheckinReply<'_>,
    out: &mut Vec<u8, A>,
) -> Result<(), AllocError>
    ensures ok { OnOk result (out.new.items ≡ out.old.items ++ checkin_text reply.now) }
    ensures err { OnErr result (out.new.items ≡ out.old.items) }
    ensures full { OnErr result (vec_capacity out.old < vec_len out.old + length (checkin_text reply.now)) }
    ensures capacity { vec_capacity out.old ≤ vec_capacity out.new }
{
    match reply.outcome {
        CheckinOutcome::Returned {
            home,
            title,
            whereabouts,
        } => append(out, &checkin_accepted(reply, home, title, whereabouts)),
        CheckinOutcome::Cancelled {
            home,
            title,
            number,
        } => append(out, &checkout_cancelled(reply, home, title, number)),
        CheckinOutcome::Refused { refusal } => append(out, &checkin_refused(reply, refusal)),
    }
}

/// The parts of the reply to a checkin that is accepted.
fn checkin_accepted<'a>(
    reply: &CheckinReply<'a>,
    home: &'a [u8],
    title: &'a [u8],
    whereabouts: Whereabouts<'a>,
) -> [Part<'a>; 8]
    ensures { flat_map part_text result
        ≡ concat (checkin_layout reply.now (OfCheckin.Returned home.entry title.entry whereabouts.entry)) }
{
    [
        Part::Text(b"101YN"),
        Part::YesNo(is_alert(whereabouts)),
        Part::Text(reply.date),
        Part::Field(*b"AO", reply.institution),
        Part::Field(*b"AB", reply.copy),
        Part::Field(*b"AQ", home),
        Part::Field(*b"AJ", title),
        whereabouts_part(whereabouts),
    ]
}

/// The parts of the reply to a checkin that cancels a checkout.
fn checkout_cancelled<'a>(
    reply: &CheckinReply<'a>,
    home: &'a [u8],
    title: &'a [u8],
    number: u64,
) -> [Part<'a>; 7]
    ensures { flat_map part_text result
        ≡ concat (checkin_layout reply.now (OfCheckin.Cancelled home.entry title.entry number)) }
{
    [
        Part::Text(b"101YNN"),
        Part::Text(reply.date),
        Part::Field(*b"AO", reply.institution),
        Part::Field(*b"AB", reply.copy),
        Part::Field(*b"AQ", home),
        Part::Field(*b"AJ", title),
        Part::Cancelled(number),
    ]
}

/// The parts of the reply to a checkin that is refused.
fn checkin_refused<'a>(reply: &CheckinReply<'a>, refusal: Refusal) -> [Part<'a>; 6]
    ensures { flat_map part_text result ≡ concat (checkin_layout reply.now (OfCheckin.Refused refusal)) }
{
    [
        Part::Text(b"100NNN"),
        Part::Text(reply.date),
        Part::Field(*b"AO", reply.institution),
        Part::Field(*b"AB", reply.copy),
        Part::Field(*b"AQ", b""),
        Part::Refused(refusal),
    ]
}

/// Whether a copy needs care: it isn't on its open shelf.
fn is_alert(whereabouts: Whereabouts<'_>) -> bool
    ensures { result ≡ is_alert whereabouts.entry }
{
    match whereabouts {
        Whereabouts::OpenShelf => false,
        Whereabouts::HoldShelf { .. } | Whereabouts::Transit { .. } => true,
    }
}

/// The field that says where a copy is, empty for the open shelf.
fn whereabouts_part(whereabouts: Whereabouts<'_>) -> Part<'_>
    ensures { part_text result ≡ whereabouts_field whereabouts.entry }
{
    match whereabouts {
        Whereabouts::OpenShelf => Part::Text(b""),
        Whereabouts::HoldShelf { place } => Part::Place(place),
        Whereabouts::Transit { branch } => Part::Bound(branch),
    }
}
