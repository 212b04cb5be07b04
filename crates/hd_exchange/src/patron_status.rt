//! The replies that report whether a patron may borrow (24).
ghost use Rattle.std.specs.Prelude.{◌≡◌};
ghost use Rattle.hd_message.specs.Lengths.{IsName, IsPrintedDate};
ghost use Rattle.hd_exchange.specs.PatronStatus.{IsStatusReply};

use crate::patron_message::PatronValues;
use hd_catalogue::Catalogue;
use hd_message::{PatronStatusOutcome, PatronStatusReply};
use std::alloc::Allocator;

/// The reply, in this language, to a message with these values and this outcome.
pub(crate) fn status_reply<'a, A: Allocator + Copy>(
    catalogue: &'a Catalogue<A>,
    values: &'a PatronValues<'a>,
    language: &'a [u8],
    outcome: PatronStatusOutcome<'a>,
) -> PatronStatusReply<'a>
    ensures reply { IsStatusReply catalogue.now values.now language.now result }
    ensures outcome { result.outcome ≡ outcome.entry }

    // It prints a date and the institution's name.
    ensures short { IsPrintedDate result.date.now × IsName result.institution.now }
{
    PatronStatusReply {
        language,
        date: &values.date,
        institution: catalogue.institution(),
        patron: values.patron,
        outcome,
    }
}
