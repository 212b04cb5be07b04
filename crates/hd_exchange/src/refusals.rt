//! The reply to a message that is refused.
ghost use Rattle.std.specs.Prelude.{◌≤◌, Result};
ghost use Rattle.hd_message.specs.Lengths.{IsShort};
ghost use Rattle.hd_rules.specs.declared.replies.Refusal.{Refusal};
ghost use Rattle.hd_rules.specs.declared.replies.TurnReply.TheVariants as turn;
ghost use Rattle.hd_rules.specs.declared.turns.Asked.{Asked};
ghost use Rattle.hd_exchange.specs.Messages.{bytes_repeated};
ghost use Rattle.hd_exchange.specs.Replies.{IsReply};

use crate::checkin_replies::checkin_reply;
use crate::hold_replies::hold_reply;
use crate::item_replies::item_reply;
use crate::loan_replies::loan_reply;
use crate::repeated::RepeatedValues;
use hd_catalogue::Catalogue;
use hd_message::{CheckinOutcome, DeskKind, HoldOutcome, ItemOutcome, LoanOutcome, Reply};
use hd_rules::Refusal;
use std::alloc::Allocator;

/// The reply to a message of this kind that is refused, beforehand or by the desk.
pub(crate) fn refusal_reply<'a, A: Allocator + Copy>(
    catalogue: &'a Catalogue<A>,
    kind: DeskKind,
    repeated: &'a RepeatedValues<'a>,
    refusal: Refusal,
) -> Reply<'a>
    requires short { bytes_repeated repeated.now ≤ 1024 }
    ensures reply { (asked : Result Asked Refusal) →
        IsReply catalogue.now kind repeated.now asked (turn.Refused refusal) result }
    ensures short { IsShort result }
{
    let loan = LoanOutcome::Refused { refusal };
    match kind {
        DeskKind::Checkout => Reply::Checkout(loan_reply(catalogue, repeated, loan)),
        DeskKind::Renew => Reply::Renew(loan_reply(catalogue, repeated, loan)),
        DeskKind::Checkin => {
            let outcome = CheckinOutcome::Refused { refusal };
            Reply::Checkin(checkin_reply(catalogue, repeated, outcome))
        }
        DeskKind::Hold => {
            let title = repeated.title;
            let outcome = HoldOutcome::Refused { title, refusal };
            Reply::Hold(hold_reply(catalogue, repeated, outcome))
        }
        DeskKind::Item => Reply::Item(item_reply(repeated, ItemOutcome::Refused { refusal })),
    }
}
