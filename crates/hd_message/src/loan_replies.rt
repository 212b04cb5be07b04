//! Writing the replies to checkouts and renewals.
ghost use Rattle.std.specs.Prelude.{◌≡◌, ◌+◌, ◌<◌, ◌≤◌, ◌++◌, OnOk, OnErr, length, vec_len, vec_capacity};
ghost use Rattle.std.specs.List.{concat, flat_map};
ghost use Rattle.hd_message.specs.LoanReplies.{checkout_front, lent_layout, loan_layout, loan_text};
ghost use Rattle.hd_message.specs.LoanReplies.{renew_front};
ghost use Rattle.hd_message.specs.Part.{part_text};
ghost use Rattle.hd_message.specs.declared.reply.LoanOutcome.TheVariants as OfLoan;

use crate::appending::append;
use crate::days::day_text;
use crate::part::{NO_DUE_DAY, Part};
use crate::reply::{LoanOutcome, LoanReply};
use hd_date::Day;
use hd_rules::Refusal;
use std::alloc::{AllocError, Allocator};

/// The code of the reply to a checkout, and whether it is accepted, a loan was renewed, the media are
/// magnetic, and the copy is to be desensitized.
pub(crate) fn checkout_front(outcome: &LoanOutcome<'_>) -> &'static [u8]
    ensures { result.now ≡ checkout_front outcome.now }
{
    match outcome {
        LoanOutcome::Lent { renewed: true, .. } => b"121YNY",
        LoanOutcome::Lent { renewed: false, .. } | LoanOutcome::Cancelled { .. } => b"121NNY",
        LoanOutcome::Refused { .. } => b"120NNN",
    }
}

/// The same of the reply to a renewal.
pub(crate) fn renew_front(outcome: &LoanOutcome<'_>) -> &'static [u8]
    ensures { result.now ≡ renew_front outcome.now }
{
    match outcome {
        LoanOutcome::Lent { .. } => b"301YNN",
        LoanOutcome::Cancelled { .. } => b"301NNN",
        LoanOutcome::Refused { .. } => b"300NNN",
    }
}

/// Appends the text of a reply that begins with this front, whole or not at all.
pub(crate) fn write_loan<A: Allocator>(
    front: &[u8],
    reply: &LoanReply<'_>,
    out: &mut Vec<u8, A>,
) -> Result<(), AllocError>
    ensures ok { OnOk result (out.new.items ≡ out.old.items ++ loan_text front.now reply.now) }
    ensures err { OnErr result (out.new.items ≡ out.old.items) }
    ensures full { OnErr result (vec_capacity out.old
        < vec_len out.old + length (loan_text front.now reply.now)) }
    ensures capacity { vec_capacity out.old ≤ vec_capacity out.new }
{
    match reply.outcome {
        LoanOutcome::Lent { title, due, .. } => append(
            out,
            &loan_accepted(front, reply, title, due),
        ),
        LoanOutcome::Cancelled { title, number } => {
            append(out, &loan_cancelled(front, reply, title, number))
        }
        LoanOutcome::Refused { refusal } => append(out, &loan_refused(front, reply, refusal)),
    }
}

/// The parts of a reply to a message that is accepted.
fn loan_accepted<'a>(
    front: &'a [u8],
    reply: &LoanReply<'a>,
    title: &'a [u8],
    due: &'a Day,
) -> [Part<'a>; 7]
    ensures { flat_map part_text result ≡ concat (lent_layout front.now reply.now title.now due.now) }
{
    [
        Part::Text(front),
        Part::Text(reply.date),
        Part::Field(*b"AO", reply.institution),
        Part::Field(*b"AA", reply.patron),
        Part::Field(*b"AB", reply.copy),
        Part::Field(*b"AJ", title),
        Part::Due(day_text(due)),
    ]
}

/// The parts of a reply to a message that cancels another.
fn loan_cancelled<'a>(
    front: &'a [u8],
    reply: &LoanReply<'a>,
    title: &'a [u8],
    number: u64,
) -> [Part<'a>; 8]
    ensures { flat_map part_text result
        ≡ concat (loan_layout front.now reply.now (OfLoan.Cancelled title.entry number)) }
{
    [
        Part::Text(front),
        Part::Text(reply.date),
        Part::Field(*b"AO", reply.institution),
        Part::Field(*b"AA", reply.patron),
        Part::Field(*b"AB", reply.copy),
        Part::Field(*b"AJ", title),
        NO_DUE_DAY,
        Part::Cancelled(number),
    ]
}

/// The parts of a reply to a message that is refused.
fn loan_refused<'a>(front: &'a [u8], reply: &LoanReply<'a>, refusal: Refusal) -> [Part<'a>; 8]
    ensures { flat_map part_text result ≡ concat (loan_layout front.now reply.now (OfLoan.Refused refusal)) }
{
    [
        Part::Text(front),
        Part::Text(reply.date),
        Part::Field(*b"AO", reply.institution),
        Part::Field(*b"AA", reply.patron),
        Part::Field(*b"AB", reply.copy),
        Part::Field(*b"AJ", b""),
        NO_DUE_DAY,
        Part::Refused(refusal),
    ]
}
