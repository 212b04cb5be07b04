//! Answering a message that asks something of the desk.
ghost use Rattle.std.specs.Prelude.{◌+◌, ◌≤◌, [], ℕ, List, IfErr, IsOk, Ok, OnOk, OnErr};
ghost use Rattle.std.specs.Prelude.{length, vec_len, vec_capacity};
ghost use Rattle.hd_catalogue.specs.Contents.{facts_of};
ghost use Rattle.hd_message.specs.Lengths.{IsShort};
ghost use Rattle.hd_rules.specs.Known.{IsKnown, IsKnownTurnReply};
ghost use Rattle.hd_rules.specs.Replies.{IsReplyTo};
ghost use Rattle.hd_exchange.specs.Answers.{IsDeskAnswer, IsReplyWith};
ghost use Rattle.hd_exchange.specs.Asks.{kind_of};
ghost use Rattle.hd_exchange.specs.Deeds.{Deed};
ghost use Rattle.hd_exchange.specs.Extensions.{extensions_lent};
ghost use Rattle.hd_exchange.specs.Messages.{IsAskable, bytes_repeated};
ghost use Rattle.hd_exchange.specs.Works.{Extends, Works};

use crate::extensions::{Extensions, profile_of};
use crate::message::DeskMessage;
use crate::refusals::refusal_reply;
use crate::repeated::RepeatedValues;
use crate::replies::reply_to;
use crate::sorting::sorted_reply;
use crate::writing::write_reply;
use hd_catalogue::Catalogue;
use hd_journal::{Office, TurnFault};
use hd_message::Reply;
use hd_rules::{Asked, TurnReply};
use std::alloc::Allocator;

/// Makes the turn of a message that asks something, and appends its reply; or appends its refusal.
///
/// At a fault there is no turn, and nothing is appended: there is room for the reply.
pub(crate) fn answer<A: Allocator + Copy, O: Office<A>>(
    office: &mut O,
    extensions: Option<&Extensions<A>>,
    message: &DeskMessage<'_>,
    out: &mut Vec<u8, A>,
) -> Result<(), TurnFault>
    requires message { IsAskable (facts_of (O.keeps office.old).contents)
        (O.keeps office.old).seat message.now }
    requires room { vec_len out.old + 2038 ≤ vec_capacity out.old }
    ensures answer { OnOk result (
        (did : List Deed)
        × (text : List ℕ)
        × IsDeskAnswer (O.keeps office.old).contents (extensions_lent extensions.entry) message.now text did
        × Works O.Office office.old office.new did
        × Extends out.old out.new text
        × (length did ≤ 1)
        × (length text ≤ 2038)) }
    // At a fault there is no turn and no text.
    ensures err { OnErr result (Works O.Office office.old office.new [] × Extends out.old out.new []) }
    ensures why { IfErr result (λ why. O.faults why × O.causes office.old office.new why) }
    ensures asks { OnErr result (IsOk message.now.asks) }
{
    match &message.asks {
        Ok(ask) => {
            let turn = office.turn(ask)?;
            let reply = reply_with(
                office.catalogue(),
                extensions,
                &message.repeated,
                ask.what_is_asked(),
                &turn.reply,
            );
            write_reply(&reply, out);
        }
        Err(refusal) => {
            let reply = refusal_reply(
                office.catalogue(),
                message.kind,
                &message.repeated,
                *refusal,
            );
            write_reply(&reply, out);
        }
    }
    Ok(())
}

/// The reply to a message whose turn asked this and got this answer: with sorter fields where they are on.
fn reply_with<'a, A: Allocator + Copy>(
    catalogue: &'a Catalogue<A>,
    extensions: Option<&'a Extensions<A>>,
    repeated: &'a RepeatedValues<'a>,
    asked: &Asked,
    told: &'a TurnReply,
) -> Reply<'a>
    requires fits { IsReplyTo asked.now told.now }
    requires asked { IsKnown (facts_of catalogue.now) asked.now }
    requires told { IsKnownTurnReply (facts_of catalogue.now) told.now }
    requires short { bytes_repeated repeated.now ≤ 1024 }
    ensures reply { IsReplyWith catalogue.now (extensions_lent extensions.entry) (kind_of asked.now)
        repeated.now (Ok asked.now) told.now result }
    ensures short { IsShort result }
{
    if profile_of(extensions).sorter_fields {
        sorted_reply(catalogue, extensions, repeated, asked, told)
    } else {
        reply_to(catalogue, repeated, asked, told)
    }
}
