//! Patron messages, from what is read of them.
ghost use Rattle.std.specs.Prelude.{◌≡◌, IfOk, Some};
ghost use Rattle.hd_exchange.specs.PatronAsks.{end_asks, look_asks, payment_asks};
ghost use Rattle.hd_exchange.specs.PatronMessages.{AreShortTexts, IsAboutNamed, IsPatronAskable};
ghost use Rattle.hd_exchange.specs.PatronMessages.{IsPatronMessageOf, patron_asked, patron_states};
ghost use Rattle.hd_exchange.specs.PatronMessages.{request_states};

use crate::context::MessageContext;
use crate::dates::{Dates, dates_of};
use crate::items_wanted::list_wanted;
use crate::login::Login;
use crate::patron_message::{PatronAsk, PatronLook, PatronMessage, PatronQuestion, PatronValues};
use crate::patron_texts::patron_texts;
use hd_catalogue::Catalogue;
use hd_message::{PatronRequest, UnreadablePatron};
use hd_rules::Refusal;
use std::alloc::Allocator;

/// The message that a patron message is, as it is read.
pub(crate) fn patron_message<'a, A: Allocator + Copy>(
    catalogue: &Catalogue<A>,
    context: &MessageContext<'a>,
    read: &Result<PatronRequest<'a>, UnreadablePatron<'a>>,
) -> PatronMessage<'a>
    requires short { AreShortTexts (patron_states catalogue.now read.now) }
    ensures message { IsPatronMessageOf catalogue.now context.now (patron_states catalogue.now read.now)
        result }
    ensures known { IsPatronAskable catalogue.now result }
{
    let texts = patron_texts(read);
    let dates = dates_of(&context.present, texts.date, None, catalogue.offset());
    PatronMessage {
        kind: texts.kind,
        values: PatronValues {
            date: dates.printed,
            language: texts.language.unwrap_or(b"000"),
            patron: texts.patron.unwrap_or(b""),
            password: texts.password,
        },
        asks: session_asks(catalogue, context.login, read, &dates),
    }
}

/// What a session asks by a patron message, or the first refusal.
fn session_asks<A: Allocator + Copy>(
    catalogue: &Catalogue<A>,
    login: Option<Login>,
    read: &Result<PatronRequest<'_>, UnreadablePatron<'_>>,
    dates: &Dates,
) -> Result<PatronAsk, Refusal>
    ensures asked { result ≡ patron_asked login (patron_states catalogue.now read.now) dates.now }
    ensures known { IfOk result (IsAboutNamed catalogue.now (patron_states catalogue.now read.now).patron) }
{
    login.ok_or(Refusal::NotLoggedIn)?;
    match read {
        Ok(request) => patron_asks(catalogue, request, dates),
        Err(_) => Err(Refusal::Unreadable),
    }
}

/// What a patron message asks that can be read, or the first refusal by its date and its patron.
fn patron_asks<A: Allocator + Copy>(
    catalogue: &Catalogue<A>,
    request: &PatronRequest<'_>,
    dates: &Dates,
) -> Result<PatronAsk, Refusal>
    ensures asked { result ≡ (request_states catalogue.now request.now).asks dates.now }
    ensures known { IfOk result
        (IsAboutNamed catalogue.now (request_states catalogue.now request.now).patron) }
{
    match request {
        PatronRequest::Status(request) => {
            look_asks(catalogue, request.patron, PatronQuestion::Status, dates)
        }
        PatronRequest::Information(request) => {
            let question = PatronQuestion::Information(list_wanted(request));
            look_asks(catalogue, request.patron, question, dates)
        }
        PatronRequest::EndSession(_) => end_asks(dates),
        PatronRequest::Block(request) => {
            look_asks(catalogue, request.patron, PatronQuestion::Block, dates)
        }
        PatronRequest::FeePaid(request) => payment_asks(catalogue, request.patron, dates),
        PatronRequest::RenewAll(request) => {
            look_asks(catalogue, request.patron, PatronQuestion::RenewAll, dates)
        }
    }
}

/// What a message asks that asks something about the patron of this name.
fn look_asks<A: Allocator + Copy>(
    catalogue: &Catalogue<A>,
    name: &[u8],
    question: PatronQuestion,
    dates: &Dates,
) -> Result<PatronAsk, Refusal>
    ensures asked { result ≡ look_asks catalogue.now name.now question dates.now }
    ensures known { IfOk result (IsAboutNamed catalogue.now (Some name.now)) }
{
    let stamp = dates.transaction.ok_or(Refusal::BadDate)?;
    let patron = catalogue.patron(name).ok_or(Refusal::UnknownPatron)?;
    Ok(PatronAsk::Look(PatronLook {
        patron,
        day: stamp.day(),
        question,
    }))
}

/// What the end of a patron's session asks, whoever that is.
fn end_asks(dates: &Dates) -> Result<PatronAsk, Refusal>
    ensures { result ≡ end_asks dates.now }
{
    dates.transaction.ok_or(Refusal::BadDate)?;
    Ok(PatronAsk::EndSession)
}

/// What a payment asks.
fn payment_asks<A: Allocator + Copy>(
    catalogue: &Catalogue<A>,
    name: &[u8],
    dates: &Dates,
) -> Result<PatronAsk, Refusal>
    ensures { result ≡ payment_asks catalogue.now name.now dates.now }
{
    dates.transaction.ok_or(Refusal::BadDate)?;
    catalogue.patron(name).ok_or(Refusal::UnknownPatron)?;
    Ok(PatronAsk::TakePayment)
}
