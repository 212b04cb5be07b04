//! The replies to the end of a patron's session (36), to payments (38) and to wishes to renew all loans (66).
ghost use Rattle.hd_message.specs.Lengths.{IsName, IsPrintedDate};
ghost use Rattle.hd_exchange.specs.Cards.{IsCardReply, IsRenewAllReply};

use crate::patron_message::PatronValues;
use hd_catalogue::Catalogue;
use hd_message::{CardReply, RenewAllOutcome, RenewAllReply};
use hd_rules::Refusal;
use std::alloc::Allocator;

/// The reply to the end of a patron's session or to a payment with these values, with its refusal if it is
/// refused.
pub(crate) fn card_reply<'a, A: Allocator + Copy>(
    catalogue: &'a Catalogue<A>,
    values: &'a PatronValues<'a>,
    refusal: Option<Refusal>,
) -> CardReply<'a>
    ensures reply { IsCardReply catalogue.now values.now refusal result }

    // It prints a date and the institution's name.
    ensures short { IsPrintedDate result.date.now × IsName result.institution.now }
{
    CardReply {
        date: &values.date,
        institution: catalogue.institution(),
        patron: values.patron,
        refusal,
    }
}

/// The reply to a wish to renew all loans with these values and this outcome.
pub(crate) fn renew_all_reply<'a, A: Allocator + Copy>(
    catalogue: &'a Catalogue<A>,
    values: &'a PatronValues<'a>,
    outcome: RenewAllOutcome,
) -> RenewAllReply<'a>
    ensures reply { IsRenewAllReply catalogue.now values.now outcome result }

    // It prints a date and the institution's name.
    ensures short { IsPrintedDate result.date.now × IsName result.institution.now }
{
    RenewAllReply {
        date: &values.date,
        institution: catalogue.institution(),
        outcome,
    }
}
