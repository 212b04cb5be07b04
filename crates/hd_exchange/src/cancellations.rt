//! The reply to a message that took an earlier one back.
ghost use Rattle.std.specs.Prelude.{◌≤◌, Ok};
ghost use Rattle.hd_catalogue.specs.Contents.{facts_of};
ghost use Rattle.hd_message.specs.Lengths.{IsShort};
ghost use Rattle.hd_rules.specs.Known.{IsKnownCancel};
ghost use Rattle.hd_rules.specs.declared.replies.TurnReply.TheVariants as turn;
ghost use Rattle.hd_rules.specs.declared.turns.Asked.TheVariants as ask;
ghost use Rattle.hd_exchange.specs.Asks.{kind_of_cancel};
ghost use Rattle.hd_exchange.specs.Messages.{bytes_repeated};
ghost use Rattle.hd_exchange.specs.Replies.{IsReply};

use crate::checkin_replies::checkin_reply;
use crate::hold_replies::hold_reply;
use crate::loan_replies::loan_reply;
use crate::repeated::RepeatedValues;
use hd_catalogue::Catalogue;
use hd_message::{CheckinOutcome, HoldOutcome, LoanOutcome, Reply};
use hd_rules::Cancel;
use std::alloc::Allocator;

/// The reply to a message that took the command of this number back.
pub(crate) fn cancellation_reply<'a, A: Allocator + Copy>(
    catalogue: &'a Catalogue<A>,
    repeated: &'a RepeatedValues<'a>,
    what: &Cancel,
    number: u64,
) -> Reply<'a>
    requires known { IsKnownCancel (facts_of catalogue.now) what.now }
    requires short { bytes_repeated repeated.now ≤ 1024 }
    ensures reply { IsReply catalogue.now (kind_of_cancel what.now) repeated.now
        (Ok (ask.Cancel what.now)) (turn.Cancelled number) result }
    ensures short { IsShort result }
{
    match what {
        Cancel::Checkin(copy) => {
            let title = catalogue.title_name(catalogue.title_of(*copy));
            let outcome = LoanOutcome::Cancelled { title, number };
            Reply::Checkout(loan_reply(catalogue, repeated, outcome))
        }
        Cancel::Renewal(copy) => {
            let title = catalogue.title_name(catalogue.title_of(*copy));
            let outcome = LoanOutcome::Cancelled { title, number };
            Reply::Renew(loan_reply(catalogue, repeated, outcome))
        }
        Cancel::Checkout(copy) => {
            let outcome = CheckinOutcome::Cancelled {
                home: catalogue.branch_name(catalogue.home(*copy)),
                title: catalogue.title_name(catalogue.title_of(*copy)),
                number,
            };
            Reply::Checkin(checkin_reply(catalogue, repeated, outcome))
        }
        Cancel::Add(_, title) | Cancel::Delete(_, title) | Cancel::Change(_, title) => {
            let title = catalogue.title_name(*title);
            let outcome = HoldOutcome::Cancelled { title, number };
            Reply::Hold(hold_reply(catalogue, repeated, outcome))
        }
    }
}
