//! The replies to checkouts and to renewals.
ghost use Rattle.std.specs.Prelude.{◌≡◌, ◌≤◌, ◌+◌, [], length};
ghost use Rattle.std.specs.Option.{option_copied, unwrap_or};
ghost use Rattle.hd_message.specs.Lengths.{IsPrintedDate, IsName};
ghost use Rattle.hd_exchange.specs.Messages.{bytes_repeated};

use crate::repeated::RepeatedValues;
use hd_catalogue::Catalogue;
use hd_message::{LoanOutcome, LoanReply};
use std::alloc::Allocator;

/// The reply to a checkout or a renewal with this outcome.
pub(crate) fn loan_reply<'a, A: Allocator + Copy>(
    catalogue: &'a Catalogue<A>,
    repeated: &'a RepeatedValues<'a>,
    outcome: LoanOutcome<'a>,
) -> LoanReply<'a>
    ensures date { result.date.now ≡ repeated.now.date }
    ensures institution { result.institution.now ≡ catalogue.now.institution }
    ensures patron { result.patron.now ≡ unwrap_or (option_copied repeated.now.patron) [] }
    ensures copy { result.copy.now ≡ unwrap_or (option_copied repeated.now.copy) [] }
    ensures outcome { result.outcome ≡ outcome.entry }

    // It prints a date, the institution's name, and no more of the message than it repeats.
    ensures short { IsPrintedDate result.date.now
        × IsName result.institution.now
        × (length result.patron.now + length result.copy.now ≤ bytes_repeated repeated.now) }
{
    LoanReply {
        date: &repeated.date,
        institution: catalogue.institution(),
        patron: repeated.patron.unwrap_or(b""),
        copy: repeated.copy.unwrap_or(b""),
        outcome,
    }
}
