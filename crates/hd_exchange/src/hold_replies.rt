//! The replies to hold messages.
ghost use Rattle.std.specs.Prelude.{◌≡◌, ◌≤◌, ◌+◌, [], length};
ghost use Rattle.std.specs.Option.{option_copied, unwrap_or};
ghost use Rattle.hd_message.specs.Lengths.{IsPrintedDate, IsName, bytes_of};
ghost use Rattle.hd_exchange.specs.Messages.{bytes_repeated};

use crate::repeated::RepeatedValues;
use hd_catalogue::Catalogue;
use hd_message::{HoldOutcome, HoldReply};
use std::alloc::Allocator;

/// The reply to a hold message with this outcome. It has an AB only where there is one to repeat.
pub(crate) fn hold_reply<'a, A: Allocator + Copy>(
    catalogue: &'a Catalogue<A>,
    repeated: &'a RepeatedValues<'a>,
    outcome: HoldOutcome<'a>,
) -> HoldReply<'a>
    ensures date { result.date.now ≡ repeated.now.date }
    ensures institution { result.institution.now ≡ catalogue.now.institution }
    ensures patron { result.patron.now ≡ unwrap_or (option_copied repeated.now.patron) [] }
    ensures copy { option_copied result.copy ≡ option_copied repeated.now.copy }
    ensures outcome { result.outcome ≡ outcome.entry }

    // It prints a date, the institution's name, and with the message's title no more of the message than it
    // repeats.
    ensures short { IsPrintedDate result.date.now
        × IsName result.institution.now
        × (length result.patron.now + bytes_of (option_copied result.copy)
        + bytes_of (option_copied repeated.now.title) ≤ bytes_repeated repeated.now) }
{
    HoldReply {
        date: &repeated.date,
        institution: catalogue.institution(),
        patron: repeated.patron.unwrap_or(b""),
        copy: repeated.copy,
        outcome,
    }
}
