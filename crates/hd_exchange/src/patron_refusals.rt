//! The reply to a patron message that is refused.
ghost use Rattle.std.specs.Prelude.{◌≡◌, ◌≤◌, length};
ghost use Rattle.hd_message.specs.Lengths.{IsPatronShort};
ghost use Rattle.hd_exchange.specs.PatronReplies.{IsRefusedPatron};

use crate::cards::{card_reply, renew_all_reply};
use crate::patron_information::information_reply;
use crate::patron_message::PatronValues;
use crate::patron_status::status_reply;
use hd_catalogue::Catalogue;
use hd_message::{
    PatronInformationOutcome, PatronKind, PatronReply, PatronStatusOutcome, RenewAllOutcome,
};
use hd_rules::Refusal;
use std::alloc::Allocator;

/// The reply to a patron message of this kind that is refused.
pub(crate) fn refused_patron<'a, A: Allocator + Copy>(
    catalogue: &'a Catalogue<A>,
    kind: PatronKind,
    values: &'a PatronValues<'a>,
    refusal: Refusal,
) -> PatronReply<'a>
    requires language { length values.now.language.now ≡ 3 }
    requires patron { length values.now.patron.now ≤ 1024 }
    ensures reply { IsRefusedPatron catalogue.now values.now kind refusal result }
    ensures short { IsPatronShort result }
{
    match kind {
        PatronKind::Status | PatronKind::Block => {
            let outcome = PatronStatusOutcome::Refused { refusal };
            PatronReply::Status(status_reply(catalogue, values, values.language, outcome))
        }
        PatronKind::Information => {
            let outcome = PatronInformationOutcome::Refused { refusal };
            PatronReply::Information(information_reply(catalogue, values, values.language, outcome))
        }
        PatronKind::EndSession => {
            PatronReply::SessionEnd(card_reply(catalogue, values, Some(refusal)))
        }
        PatronKind::FeePaid => PatronReply::FeePaid(card_reply(catalogue, values, Some(refusal))),
        PatronKind::RenewAll => {
            let outcome = RenewAllOutcome::Refused { refusal };
            PatronReply::RenewAll(renew_all_reply(catalogue, values, outcome))
        }
    }
}
