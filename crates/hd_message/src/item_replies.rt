//! Writing the replies to questions about copies.
ghost use Rattle.std.specs.Prelude.{◌≡◌, ◌+◌, ◌<◌, ◌≤◌, ◌++◌, OnOk, OnErr, length, vec_len, vec_capacity};
ghost use Rattle.std.specs.List.{concat, flat_map};
ghost use Rattle.hd_message.specs.ItemReplies.{branch_field, item_layout, item_text, loan_field, status_code};
ghost use Rattle.hd_message.specs.Part.{part_text};
ghost use Rattle.hd_message.specs.declared.reply.ItemOutcome.TheVariants as OfItem;

use crate::appending::append;
use crate::days::day_text;
use crate::part::Part;
use crate::reply::{Circulation, ItemOutcome, ItemReply};
use hd_rules::Refusal;
use std::alloc::{AllocError, Allocator};

/// Appends the text of the reply to a question about a copy, whole or not at all.
pub(crate) fn write_item<A: Allocator>(
    reply: &ItemReply<'_>,
    out: &mut Vec<u8, A>,
) -> Result<(), AllocError>
    ensures ok { OnOk result (out.new.items ≡ out.old.items ++ item_text reply.now) }
    ensures err { OnErr result (out.new.items ≡ out.old.items) }
    ensures full { OnErr result (vec_capacity out.old < vec_len out.old + length (item_text reply.now)) }
    ensures capacity { vec_capacity out.old ≤ vec_capacity out.new }
{
    match reply.outcome {
        ItemOutcome::Found {
            holds,
            title,
            home,
            circulation,
        } => append(out, &item_found(reply, holds, title, home, circulation)),
        ItemOutcome::Refused { refusal } => append(out, &item_refused(reply, refusal)),
    }
}

/// The parts of the reply about a copy that the catalogue has.
fn item_found<'a>(
    reply: &ItemReply<'a>,
    holds: u64,
    title: &'a [u8],
    home: &'a [u8],
    circulation: Circulation<'a>,
) -> [Part<'a>; 10]
    ensures { flat_map part_text result
        ≡ concat (item_layout reply.now (OfItem.Found holds title.entry home.entry circulation.entry)) }
{
    [
        Part::Text(b"18"),
        Part::Text(status(circulation)),
        Part::Text(b"0001"),
        Part::Text(reply.date),
        Part::Holds(holds),
        due_part(circulation),
        Part::Field(*b"AB", reply.copy),
        Part::Field(*b"AJ", title),
        Part::Field(*b"AQ", home),
        branch_part(circulation),
    ]
}

/// The parts of the reply to a question that is refused.
fn item_refused<'a>(reply: &ItemReply<'a>, refusal: Refusal) -> [Part<'a>; 5]
    ensures { flat_map part_text result ≡ concat (item_layout reply.now (OfItem.Refused refusal)) }
{
    [
        Part::Text(b"18010001"),
        Part::Text(reply.date),
        Part::Field(*b"AB", reply.copy),
        Part::Field(*b"AJ", b""),
        Part::Refused(refusal),
    ]
}

/// The circulation status of a copy.
fn status(circulation: Circulation<'_>) -> &'static [u8]
    ensures { result.now ≡ status_code circulation.entry }
{
    match circulation {
        Circulation::OpenShelf { .. } => b"03",
        Circulation::Loan { .. } => b"04",
        Circulation::HoldShelf { .. } => b"08",
        Circulation::Transit => b"10",
    }
}

/// The due day of a loan, and nothing of another copy.
fn due_part(circulation: Circulation<'_>) -> Part<'_>
    ensures { part_text result ≡ loan_field circulation.entry }
{
    match circulation {
        Circulation::Loan { due } => Part::Due(day_text(due)),
        _ => Part::Text(b""),
    }
}

/// The branch where a copy stands, and nothing of a loan and a transit.
fn branch_part(circulation: Circulation<'_>) -> Part<'_>
    ensures { part_text result ≡ branch_field circulation.entry }
{
    match circulation {
        Circulation::OpenShelf { branch } | Circulation::HoldShelf { branch } => {
            Part::Field(*b"AP", branch)
        }
        Circulation::Loan { .. } | Circulation::Transit => Part::Text(b""),
    }
}
