//! What a message is answered.
ghost use Rattle.std.specs.Prelude.{◌≡◌, ◌+◌, ◌≤◌, [], ℕ, List, IfErr, IfOk, OnErr, length, option_map};
ghost use Rattle.std.specs.Prelude.{vec_len, vec_capacity};
ghost use Rattle.std.specs.Option.{ForSome};
ghost use Rattle.hd_catalogue.specs.Contents.{facts_of};
ghost use Rattle.hd_exchange.specs.Answers.{AsksTheOffice, IsAnswer};
ghost use Rattle.hd_exchange.specs.Arrivals.{IsKnownLogin};
ghost use Rattle.hd_exchange.specs.Deeds.{Deed, turns_in};
ghost use Rattle.hd_exchange.specs.Extensions.{extensions_lent};
ghost use Rattle.hd_exchange.specs.Works.{Extends, Works};

use crate::alone::answer_alone;
use crate::context::MessageContext;
use crate::desk::answer;
use crate::extensions::{Extensions, profile_of};
use crate::login::Login;
use crate::message::Message;
use crate::messages::message_of;
use crate::patron_answers::answer_patron;
use crate::reply_kind::ReplyKind;
use hd_date::Stamp18;
use hd_journal::{Office, TurnFault};
use std::alloc::Allocator;

/// Answers the body of a message from a session with this login. Makes the turn or the look that the message
/// asks for, if it asks for one, and appends the text of its reply, if it has one. A login that is accepted
/// replaces the session's login.
///
/// `extensions` are those that are on at the server, if any. `line` is the message's whole line, where it
/// carried a sequence digit. `now` is the present. It is printed in a status reply, and where no date can be
/// read.
///
/// A body has at most 1,024 bytes, and `out` has room for the longest reply to it: 2,038 bytes. So every turn
/// gets its reply.
///
/// # Errors The office's fault at a message that asks something of it: `Memory`, `Estranged` or `Unwritten`.
/// Then there is no turn, nothing is appended, and the login is as before.
pub fn respond<A: Allocator + Copy, O: Office<A>>(
    office: &mut O,
    extensions: Option<&Extensions<A>>,
    now: &Stamp18,
    login: &mut Option<Login>,
    body: &[u8],
    line: Option<&[u8]>,
    out: &mut Vec<u8, A>,
) -> Result<ReplyKind, TurnFault>
    requires login { ForSome login.old (IsKnownLogin (facts_of (O.keeps office.old).contents)) }
    requires short { length body.now ≤ 1024 }
    requires room { vec_len out.old + 2038 ≤ vec_capacity out.old }
    // The office does one deed or none, and at most 2,038 bytes are appended.
    ensures answer { IfOk result (λ said.
        (did : List Deed)
        × (text : List ℕ)
        × IsAnswer (O.keeps office.old).contents (extensions_lent extensions.entry)
        (O.keeps office.old).seat now.now login.old
        (option_map (λ bytes. bytes.now) line.entry) body.now said text did login.new
        × Works O.Office office.old office.new did
        × Extends out.old out.new text
        × (length did ≤ 1)
        × (length text ≤ 2038)) }
    ensures login { ForSome login.new (IsKnownLogin (facts_of (O.keeps office.old).contents)) }
    // At a fault the office does nothing, there is no text, and the session is logged in as before.
    ensures err { OnErr result (
        Works O.Office office.old office.new []
        × Extends out.old out.new []
        × (login.new ≡ login.old)) }
    ensures why { IfErr result (λ why. O.faults why × O.causes office.old office.new why) }
    ensures asks { OnErr result (AsksTheOffice (O.keeps office.old).contents
        (extensions_lent extensions.entry) login.old body.now) }
{
    let context = MessageContext {
        present: *now,
        seat: office.seat(),
        login: *login,
        line,
    };
    match message_of(office.catalogue(), extensions, &context, body) {
        Message::Session(message) => {
            let profile = profile_of(extensions);
            Ok(answer_alone(office.catalogue(), profile, now, &message, login, out))
        }
        Message::Desk(message) => {
            answer(office, extensions, &message, out)?;
            Ok(ReplyKind::Reply)
        }
        Message::Patron(message) => {
            answer_patron(office, extensions, &message, out)?;
            Ok(ReplyKind::Reply)
        }
    }
}
