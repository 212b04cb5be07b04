//! The reply to a message whose command was accepted.
ghost use Rattle.std.specs.Prelude.{ℕ, ◌≤◌, Ok};
ghost use Rattle.hd_catalogue.specs.Contents.{facts_of};
ghost use Rattle.hd_message.specs.Lengths.{IsShort};
ghost use Rattle.hd_rules.specs.Known.{IsKnownReply};
ghost use Rattle.hd_rules.specs.Replies.{TellsOf};
ghost use Rattle.hd_rules.specs.declared.replies.TurnReply.TheVariants as turn;
ghost use Rattle.hd_rules.specs.declared.turns.Asked.TheVariants as ask;
ghost use Rattle.hd_exchange.specs.Asks.{kind_of_action};
ghost use Rattle.hd_exchange.specs.Messages.{bytes_repeated};
ghost use Rattle.hd_exchange.specs.Replies.{IsReply};

use crate::checkin_replies::{checkin_reply, whereabouts};
use crate::hold_replies::hold_reply;
use crate::loan_replies::loan_reply;
use crate::repeated::RepeatedValues;
use hd_catalogue::Catalogue;
use hd_message::{CheckinOutcome, HoldOutcome, LoanOutcome, Reply};
use hd_rules::{Action, Command, Reply as Told};
use std::alloc::Allocator;

/// The reply to a message whose command was accepted and got this answer.
pub(crate) fn accepted_reply<'a, A: Allocator + Copy>(
    catalogue: &'a Catalogue<A>,
    repeated: &'a RepeatedValues<'a>,
    command: &Command,
    told: &'a Told,
) -> Reply<'a>
    requires fits { TellsOf command.now.action told.now }
    requires known { IsKnownReply (facts_of catalogue.now) told.now }
    requires short { bytes_repeated repeated.now ≤ 1024 }
    ensures reply { (number : ℕ) →
        IsReply catalogue.now (kind_of_action command.now.action) repeated.now
        (Ok (ask.Command command.now)) (turn.Done number told.now) result }
    ensures short { IsShort result }
{
    match told {
        Told::LentOrRenewed {
            title,
            due,
            renewal,
        } => {
            let outcome = LoanOutcome::Lent {
                renewed: *renewal,
                title: catalogue.title_name(*title),
                due,
            };
            let reply = loan_reply(catalogue, repeated, outcome);
            match &command.action {
                Action::Renewal { .. } => Reply::Renew(reply),
                _ => Reply::Checkout(reply),
            }
        }
        Told::Returned { title, home, now } => {
            let outcome = CheckinOutcome::Returned {
                home: catalogue.branch_name(*home),
                title: catalogue.title_name(*title),
                whereabouts: whereabouts(catalogue, now),
            };
            Reply::Checkin(checkin_reply(catalogue, repeated, outcome))
        }
        Told::Held {
            title,
            available,
            position,
            hold,
        } => {
            let outcome = HoldOutcome::Held {
                available: *available,
                expiry: hold.expiry.as_ref(),
                position: *position,
                pickup: catalogue.branch_name(hold.pickup),
                title: catalogue.title_name(*title),
            };
            Reply::Hold(hold_reply(catalogue, repeated, outcome))
        }
        Told::Deleted { title } => {
            let title = catalogue.title_name(*title);
            Reply::Hold(hold_reply(catalogue, repeated, HoldOutcome::Deleted { title }))
        }
    }
}
