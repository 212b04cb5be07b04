//! Answering a patron message.
ghost use Rattle.std.specs.Prelude.{◌≡◌, ◌+◌, ◌≤◌, [], ℕ, List, IfErr, OnOk, OnErr, length};
ghost use Rattle.std.specs.Prelude.{vec_len, vec_capacity};
ghost use Rattle.hd_catalogue.specs.Contents.{facts_of};
ghost use Rattle.hd_exchange.specs.Answers.{AsksForALook, IsPatronAnswer};
ghost use Rattle.hd_exchange.specs.Deeds.{Deed};
ghost use Rattle.hd_exchange.specs.Extensions.{extensions_lent};
ghost use Rattle.hd_exchange.specs.PatronMessages.{IsPatronAskable};
ghost use Rattle.hd_exchange.specs.Works.{Extends, Works};

use crate::cards::card_reply;
use crate::extensions::Extensions;
use crate::look_replies::write_look;
use crate::patron_message::{PatronAsk, PatronMessage};
use crate::patron_reader::PatronReader;
use crate::patron_refusals::refused_patron;
use crate::told_patrons::told_password;
use crate::writing::write_reply;
use hd_journal::{Office, TurnFault};
use hd_message::{PatronReply, Reply};
use std::alloc::Allocator;

/// Makes the look that a patron message asks for, if it asks for one, and appends its reply; or appends its
/// refusal. The password is checked before the look, which reads no more than the reply reports.
///
/// At a fault the office does nothing, and nothing is appended: there is room for the reply.
pub(crate) fn answer_patron<A: Allocator + Copy, O: Office<A>>(
    office: &O,
    extensions: Option<&Extensions<A>>,
    message: &PatronMessage<'_>,
    out: &mut Vec<u8, A>,
) -> Result<(), TurnFault>
    requires message { IsPatronAskable (O.keeps office.now).contents message.now }
    requires room { vec_len out.old + 2038 ≤ vec_capacity out.old }
    ensures answer { OnOk result (
        (did : List Deed)
        × (text : List ℕ)
        × IsPatronAnswer (O.keeps office.now).contents (extensions_lent extensions.entry) message.now text did
        × Works O.Office office.now office.now did
        × Extends out.old out.new text
        × (length did ≤ 1)
        × (length text ≤ 2038)) }
    // At a fault there is no text.
    ensures err { OnErr result (Extends out.old out.new []) }
    ensures why { IfErr result (λ why. O.faults why × O.causes office.now office.now why) }
    ensures asks { OnErr result (AsksForALook message.now.asks) }
{
    match &message.asks {
        Ok(PatronAsk::Look(look)) => {
            let password = told_password(extensions, look.patron, message.values.password);
            let mut reader = PatronReader::new(look, password);
            office.look(&mut reader)?;
            write_look(
                office.catalogue(),
                extensions,
                &message.values,
                password,
                &reader,
                out,
            );
        }
        Ok(PatronAsk::EndSession) => {
            let reply = card_reply(office.catalogue(), &message.values, None);
            write_reply(&Reply::Patron(PatronReply::SessionEnd(reply)), out);
        }
        Ok(PatronAsk::TakePayment) => {
            let reply = card_reply(office.catalogue(), &message.values, None);
            write_reply(&Reply::Patron(PatronReply::FeePaid(reply)), out);
        }
        Err(refusal) => {
            let reply = refused_patron(office.catalogue(), message.kind, &message.values, *refusal);
            write_reply(&Reply::Patron(reply), out);
        }
    }
    Ok(())
}
