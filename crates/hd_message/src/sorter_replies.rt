//! Writing the replies with sorter fields.
ghost use Rattle.std.specs.Prelude.{◌≡◌, ◌+◌, ◌<◌, ◌≤◌, ◌++◌, OnOk, OnErr, length, vec_len, vec_capacity};
ghost use Rattle.std.specs.List.{concat, flat_map};
ghost use Rattle.hd_message.specs.Part.{part_text};
ghost use Rattle.hd_message.specs.SorterReplies.{alert_field, bin_field, branch_to_field, needs_care};
ghost use Rattle.hd_message.specs.SorterReplies.{notice_field, recipient_field, recipient_layout};
ghost use Rattle.hd_message.specs.SorterReplies.{recipient_name_field, recipient_of, sorter_item_text};
ghost use Rattle.hd_message.specs.SorterReplies.{sorter_layout, sorter_text};

use crate::appending::append;
use crate::item_replies::write_item;
use crate::part::Part;
use crate::sorter_reply::{Destination, Recipient, SorterItemReply, SorterReply};
use std::alloc::{AllocError, Allocator};

/// Appends the text of the reply to a checkin with sorter fields, whole or not at all.
pub(crate) fn write_sorter<A: Allocator>(
    reply: &SorterReply<'_>,
    out: &mut Vec<u8, A>,
) -> Result<(), AllocError>
    ensures ok { OnOk result (out.new.items ≡ out.old.items ++ sorter_text reply.now) }
    ensures err { OnErr result (out.new.items ≡ out.old.items) }
    ensures full { OnErr result (vec_capacity out.old < vec_len out.old + length (sorter_text reply.now)) }
    ensures capacity { vec_capacity out.old ≤ vec_capacity out.new }
{
    append(out, &returned(reply, reply.destination))
}

/// The parts of the reply to a checkin with sorter fields.
fn returned<'a>(reply: &SorterReply<'a>, destination: Destination<'a>) -> [Part<'a>; 13]
    ensures { flat_map part_text result ≡ concat (sorter_layout reply.now destination.entry) }
{
    let recipient = recipient_of(destination);
    [
        Part::Text(b"101YN"),
        Part::YesNo(needs_care(destination)),
        Part::Text(reply.date),
        Part::Field(*b"AO", reply.institution),
        Part::Field(*b"AB", reply.copy),
        Part::Field(*b"AQ", reply.home),
        Part::Field(*b"AJ", reply.title),
        bin_part(destination),
        alert_part(destination),
        branch_to_part(destination),
        recipient_part(recipient),
        recipient_name_part(recipient),
        notice_part(destination),
    ]
}

/// Appends the text of the reply to a question about a copy with sorter fields, whole or not at all.
pub(crate) fn write_sorter_item<A: Allocator>(
    reply: &SorterItemReply<'_>,
    out: &mut Vec<u8, A>,
) -> Result<(), AllocError>
    ensures ok { OnOk result (out.new.items ≡ out.old.items ++ sorter_item_text reply.now) }
    ensures err { OnErr result (out.new.items ≡ out.old.items) }
    ensures full { OnErr result (vec_capacity out.old
        < vec_len out.old + length (sorter_item_text reply.now)) }
    ensures capacity { vec_capacity out.old ≤ vec_capacity out.new }
{
    let start = out.len();
    write_item(&reply.item, out)?;
    if let Err(error) = append(out, &recipient_parts(reply.recipient)) {
        out.truncate(start);
        return Err(error);
    }
    Ok(())
}

/// The parts that say for whom a copy is.
fn recipient_parts<'a>(recipient: Option<Recipient<'a>>) -> [Part<'a>; 2]
    ensures { flat_map part_text result ≡ concat (recipient_layout recipient.entry) }
{
    [recipient_part(recipient), recipient_name_part(recipient)]
}

/// Whether a copy needs care: it isn't on its open shelf.
fn needs_care(destination: Destination<'_>) -> bool
    ensures { result ≡ needs_care destination.entry }
{
    match destination {
        Destination::OpenShelf => false,
        Destination::HoldShelf { .. } | Destination::Transit { .. } => true,
    }
}

/// The bin of a copy, empty for the open shelf.
fn bin_part(destination: Destination<'_>) -> Part<'_>
    ensures { part_text result ≡ bin_field destination.entry }
{
    match destination {
        Destination::OpenShelf => Part::Text(b""),
        Destination::HoldShelf { .. } => Part::Field(*b"CL", b"H"),
        Destination::Transit { branch, .. } => Part::Bound(branch),
    }
}

/// The kind of alert, empty for the open shelf.
fn alert_part(destination: Destination<'_>) -> Part<'_>
    ensures { part_text result ≡ alert_field destination.entry }
{
    match destination {
        Destination::OpenShelf => Part::Text(b""),
        Destination::HoldShelf { .. } => Part::Field(*b"CV", b"01"),
        Destination::Transit {
            recipient: Some(_),
            ..
        } => Part::Field(*b"CV", b"02"),
        Destination::Transit {
            recipient: None,
            ..
        } => Part::Field(*b"CV", b"04"),
    }
}

/// The branch to which a copy goes, empty for one that goes nowhere.
fn branch_to_part(destination: Destination<'_>) -> Part<'_>
    ensures { part_text result ≡ branch_to_field destination.entry }
{
    match destination {
        Destination::Transit { branch, .. } => Part::Field(*b"CT", branch),
        _ => Part::Text(b""),
    }
}

/// For whom a copy is, if it is for somebody.
fn recipient_of(destination: Destination<'_>) -> Option<Recipient<'_>>
    ensures { result ≡ recipient_of destination.entry }
{
    match destination {
        Destination::OpenShelf => None,
        Destination::HoldShelf { recipient, .. } => Some(recipient),
        Destination::Transit { recipient, .. } => recipient,
    }
}

/// The patron for whom a copy is, empty where it is for nobody.
fn recipient_part(recipient: Option<Recipient<'_>>) -> Part<'_>
    ensures { part_text result ≡ recipient_field recipient.entry }
{
    match recipient {
        None => Part::Text(b""),
        Some(recipient) => Part::Field(*b"CY", recipient.patron),
    }
}

/// Their name, empty where there is none.
fn recipient_name_part(recipient: Option<Recipient<'_>>) -> Part<'_>
    ensures { part_text result ≡ recipient_name_field recipient.entry }
{
    match recipient {
        None => Part::Text(b""),
        Some(recipient) => Part::Optional(*b"DA", recipient.name),
    }
}

/// The place of a copy on the hold shelf, empty for another copy.
fn notice_part(destination: Destination<'_>) -> Part<'_>
    ensures { part_text result ≡ notice_field destination.entry }
{
    match destination {
        Destination::HoldShelf { place, .. } => Part::OnHoldShelf(place),
        _ => Part::Text(b""),
    }
}
