//! The reply to a message whose turn was made.
ghost use Rattle.std.specs.Prelude.{◌≡◌, ◌≤◌, Ok};
ghost use Rattle.hd_catalogue.specs.Contents.{facts_of};
ghost use Rattle.hd_message.specs.Lengths.{IsShort};
ghost use Rattle.hd_rules.specs.Known.{IsKnown, IsKnownTurnReply};
ghost use Rattle.hd_rules.specs.Replies.{IsReplyTo};
ghost use Rattle.hd_exchange.specs.Asks.{kind_of, kind_of_action, kind_of_cancel};
ghost use Rattle.hd_exchange.specs.Messages.{bytes_repeated};
ghost use Rattle.hd_exchange.specs.Replies.{IsReply};

use crate::accepted::accepted_reply;
use crate::cancellations::cancellation_reply;
use crate::item_replies::{item_reply, outcome_of_view};
use crate::refusals::refusal_reply;
use crate::repeated::RepeatedValues;
use hd_catalogue::Catalogue;
use hd_message::{DeskKind, Reply};
use hd_rules::{Action, Asked, Cancel, TurnReply};
use std::alloc::Allocator;

/// The reply to a message whose turn asked this and got this answer.
pub(crate) fn reply_to<'a, A: Allocator + Copy>(
    catalogue: &'a Catalogue<A>,
    repeated: &'a RepeatedValues<'a>,
    asked: &Asked,
    told: &'a TurnReply,
) -> Reply<'a>
    requires fits { IsReplyTo asked.now told.now }
    requires asked { IsKnown (facts_of catalogue.now) asked.now }
    requires told { IsKnownTurnReply (facts_of catalogue.now) told.now }
    requires short { bytes_repeated repeated.now ≤ 1024 }
    ensures reply { IsReply catalogue.now (kind_of asked.now) repeated.now (Ok asked.now) told.now result }
    ensures short { IsShort result }
{
    match (asked, told) {
        (_, TurnReply::Refused(refusal)) => {
            refusal_reply(catalogue, kind_of(asked), repeated, *refusal)
        }
        (Asked::Command(command), TurnReply::Done { reply, .. }) => {
            accepted_reply(catalogue, repeated, command, reply)
        }
        (Asked::Cancel(what), TurnReply::Cancelled { number }) => {
            cancellation_reply(catalogue, repeated, what, *number)
        }
        (Asked::Item(copy), TurnReply::Item(view)) => {
            Reply::Item(item_reply(repeated, outcome_of_view(catalogue, *copy, view)))
        }
        _ => unreachable!(),
    }
}

/// The kind of the messages that ask so.
fn kind_of(asked: &Asked) -> DeskKind
    ensures { result ≡ kind_of asked.now }
{
    match asked {
        Asked::Command(command) => kind_of_action(&command.action),
        Asked::Cancel(what) => kind_of_cancel(what),
        Asked::Item(_) => DeskKind::Item,
    }
}

/// The kind of the messages that ask for an action.
fn kind_of_action(action: &Action) -> DeskKind
    ensures { result ≡ kind_of_action action.now }
{
    match action {
        Action::Checkout { .. } | Action::OffLine { .. } => DeskKind::Checkout,
        Action::Checkin { .. } => DeskKind::Checkin,
        Action::Add { .. } | Action::Delete { .. } | Action::Change { .. } => DeskKind::Hold,
        Action::Renewal { .. } => DeskKind::Renew,
    }
}

/// The kind of the messages that take this back.
fn kind_of_cancel(what: &Cancel) -> DeskKind
    ensures { result ≡ kind_of_cancel what.now }
{
    match what {
        Cancel::Checkin(_) => DeskKind::Checkout,
        Cancel::Checkout(_) => DeskKind::Checkin,
        Cancel::Renewal(_) => DeskKind::Renew,
        Cancel::Add(..) | Cancel::Delete(..) | Cancel::Change(..) => DeskKind::Hold,
    }
}
