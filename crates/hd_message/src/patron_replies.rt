//! Writing the replies to patron messages.
ghost use Rattle.std.specs.Prelude.{◌≡◌, ◌+◌, ◌<◌, ◌≤◌, ◌++◌, OnOk, OnErr, length, vec_len, vec_capacity};
ghost use Rattle.std.specs.List.{concat, flat_map};
ghost use Rattle.hd_message.specs.Part.{part_text};
ghost use Rattle.hd_message.specs.PatronReplies.{card_layout, flags_text, known_layout};
ghost use Rattle.hd_message.specs.PatronReplies.{not_renewed_layout, password_field, patron_status_layout};
ghost use Rattle.hd_message.specs.PatronReplies.{patron_text, payment_layout, renew_all_layout};
ghost use Rattle.hd_message.specs.PatronReplies.{session_end_layout};
ghost use Rattle.hd_message.specs.declared.patron_reply.PatronStatusOutcome.TheVariants as OfStatus;

use crate::appending::append;
use crate::information_replies::write_information;
use crate::part::Part;
use crate::patron_reply::{
    CardReply, KnownPatron, PasswordValidity, PatronFlags, PatronReply, PatronStatusOutcome,
    PatronStatusReply, RenewAllOutcome, RenewAllReply,
};
use hd_rules::Refusal;
use std::alloc::{AllocError, Allocator};

/// The patron status of a message that is refused.
pub(crate) const REFUSED_FLAGS: Part<'static> = Part::Text(b"YYYY          ");

/// Appends the text of a reply to a patron message, whole or not at all.
pub(crate) fn write_patron<A: Allocator>(
    reply: &PatronReply<'_>,
    out: &mut Vec<u8, A>,
) -> Result<(), AllocError>
    ensures ok { OnOk result (out.new.items ≡ out.old.items ++ patron_text reply.now) }
    ensures err { OnErr result (out.new.items ≡ out.old.items) }
    ensures full { OnErr result (vec_capacity out.old < vec_len out.old + length (patron_text reply.now)) }
    ensures capacity { vec_capacity out.old ≤ vec_capacity out.new }
{
    match reply {
        PatronReply::Status(reply) => write_status(reply, out),
        PatronReply::Information(reply) => write_information(reply, out),
        PatronReply::SessionEnd(reply) => append(out, &session_end(reply)),
        PatronReply::FeePaid(reply) => append(out, &payment(reply)),
        PatronReply::RenewAll(reply) => append(out, &renew_all(reply)),
    }
}

/// Appends the text of the reply to a question whether a patron may borrow, whole or not at all.
fn write_status<A: Allocator>(
    reply: &PatronStatusReply<'_>,
    out: &mut Vec<u8, A>,
) -> Result<(), AllocError>
    ensures ok { OnOk result (out.new.items
        ≡ out.old.items ++ concat (patron_status_layout reply.now reply.now.outcome)) }
    ensures err { OnErr result (out.new.items ≡ out.old.items) }
    ensures full { OnErr result (vec_capacity out.old
        < vec_len out.old + length (concat (patron_status_layout reply.now reply.now.outcome))) }
    ensures capacity { vec_capacity out.old ≤ vec_capacity out.new }
{
    match reply.outcome {
        PatronStatusOutcome::Known(patron) => {
            append(out, &known(reply, &patron, Part::Text(b"")))
        }
        PatronStatusOutcome::NotBlocked(patron) => {
            let notice = Part::Field(*b"AF", b"CARD NOT BLOCKED");
            append(out, &known(reply, &patron, notice))
        }
        PatronStatusOutcome::Refused { refusal } => append(out, &status_refused(reply, refusal)),
    }
}

/// The parts of a reply about a patron who is known, and a notice at its end.
fn known<'a>(
    reply: &PatronStatusReply<'a>,
    patron: &KnownPatron<'a>,
    notice: Part<'a>,
) -> [Part<'a>; 10]
    ensures { flat_map part_text result
        ≡ concat (known_layout reply.now patron.now (part_text notice.entry)) }
{
    [
        Part::Text(b"24"),
        Part::Text(flags_text(patron.flags)),
        Part::Text(reply.language),
        Part::Text(reply.date),
        Part::Field(*b"AO", reply.institution),
        Part::Field(*b"AA", reply.patron),
        Part::Field(*b"AE", patron.name),
        Part::Field(*b"BL", b"Y"),
        password_part(patron.password),
        notice,
    ]
}

/// The parts of a reply to a question that is refused.
fn status_refused<'a>(reply: &PatronStatusReply<'a>, refusal: Refusal) -> [Part<'a>; 9]
    ensures { flat_map part_text result
        ≡ concat (patron_status_layout reply.now (OfStatus.Refused refusal)) }
{
    [
        Part::Text(b"24"),
        REFUSED_FLAGS,
        Part::Text(reply.language),
        Part::Text(reply.date),
        Part::Field(*b"AO", reply.institution),
        Part::Field(*b"AA", reply.patron),
        Part::Field(*b"AE", b""),
        Part::Field(*b"BL", b"N"),
        Part::Refused(refusal),
    ]
}

/// The parts of the reply to the end of a session.
fn session_end<'a>(reply: &CardReply<'a>) -> [Part<'a>; 5]
    ensures { flat_map part_text result ≡ concat (session_end_layout reply.now reply.now.refusal) }
{
    match reply.refusal {
        None => card_parts(b"36Y", reply, Part::Text(b"")),
        Some(refusal) => card_parts(b"36N", reply, Part::Refused(refusal)),
    }
}

/// The parts of the reply to a payment.
fn payment<'a>(reply: &CardReply<'a>) -> [Part<'a>; 5]
    ensures { flat_map part_text result ≡ concat (payment_layout reply.now reply.now.refusal) }
{
    match reply.refusal {
        None => card_parts(b"38N", reply, Part::Field(*b"AF", b"NO FEES HERE")),
        Some(refusal) => card_parts(b"38N", reply, Part::Refused(refusal)),
    }
}

/// The parts of a reply to a message that names a card, after its front, and a notice at the end.
fn card_parts<'a>(front: &'a [u8], reply: &CardReply<'a>, notice: Part<'a>) -> [Part<'a>; 5]
    ensures { flat_map part_text result
        ≡ concat (card_layout front.now reply.now (part_text notice.entry)) }
{
    [
        Part::Text(front),
        Part::Text(reply.date),
        Part::Field(*b"AO", reply.institution),
        Part::Field(*b"AA", reply.patron),
        notice,
    ]
}

/// The parts of the reply to a wish to renew all loans.
fn renew_all<'a>(reply: &RenewAllReply<'a>) -> [Part<'a>; 5]
    ensures { flat_map part_text result ≡ concat (renew_all_layout reply.now reply.now.outcome) }
{
    match reply.outcome {
        RenewAllOutcome::NotRenewed { loans } => {
            not_renewed(reply, loans, Part::Field(*b"AF", b"RENEW EACH ITEM"))
        }
        RenewAllOutcome::Refused { refusal } => not_renewed(reply, 0, Part::Refused(refusal)),
    }
}

/// The parts of a reply that says that none of `loans` loans is renewed, and a notice at the end.
fn not_renewed<'a>(reply: &RenewAllReply<'a>, loans: u64, notice: Part<'a>) -> [Part<'a>; 5]
    ensures { flat_map part_text result
        ≡ concat (not_renewed_layout reply.now loans (part_text notice.entry)) }
{
    [
        Part::Text(b"6600000"),
        Part::Count(loans),
        Part::Text(reply.date),
        Part::Field(*b"AO", reply.institution),
        notice,
    ]
}

/// The patron status: two positions of 14.
pub(crate) fn flags_text(flags: PatronFlags) -> &'static [u8]
    ensures { result.now ≡ flags_text flags }
{
    match (flags.charge_denied, flags.too_many_charged) {
        (false, false) => b"              ",
        (false, true) => b"     Y        ",
        (true, false) => b"Y             ",
        (true, true) => b"Y    Y        ",
    }
}

/// CQ.
pub(crate) fn password_part<'a>(check: PasswordValidity) -> Part<'a>
    ensures { part_text result ≡ password_field check }
{
    match check {
        PasswordValidity::Unasked => Part::Text(b""),
        PasswordValidity::Right => Part::Field(*b"CQ", b"Y"),
        PasswordValidity::Wrong => Part::Field(*b"CQ", b"N"),
    }
}
