//! Reading a message.
ghost use Rattle.std.specs.Prelude.{◌≡◌, ◌<◌, ◌≤◌, IfSome, length};
ghost use Rattle.std.specs.Option.{ForSome};
ghost use Rattle.hd_message.specs.Repeated.{repeated_bytes};
ghost use Rattle.hd_catalogue.specs.Contents.{facts_of};
ghost use Rattle.hd_exchange.specs.Arrivals.{IsKnownLogin};
ghost use Rattle.hd_exchange.specs.Extensions.{extensions_lent};
ghost use Rattle.hd_exchange.specs.Messages.{IsBodyOf, NamesKnownThings, IsRequestAs};

use crate::checkins::checkin_values;
use crate::checkouts::checkout_values;
use crate::context::MessageContext;
use crate::extensions::{Extensions, profile_of};
use crate::holds::hold_values;
use crate::items::item_values;
use crate::logins::login_made;
use crate::message::{Message, SessionMessage};
use crate::patron_messages::patron_message;
use crate::renewals::renew_values;
use crate::requests::desk_message;
use crate::unreadable::unreadable_values;
use hd_catalogue::Catalogue;
use hd_message::{
    Reading, Request, Unreadable, named_patrons_fit_their_body, read_with,
    repeated_values_fit_their_body,
};
use std::alloc::Allocator;

/// The message of a body.
pub(crate) fn message_of<'a, A: Allocator + Copy>(
    catalogue: &Catalogue<A>,
    extensions: Option<&Extensions<A>>,
    context: &MessageContext<'a>,
    body: &'a [u8],
) -> Message<'a>
    requires login { ForSome context.now.login (IsKnownLogin (facts_of catalogue.now)) }
    requires short { length body.now ≤ 1024 }
    ensures message { IsBodyOf catalogue.now (extensions_lent extensions.entry) context.now body.now result }
    ensures known { NamesKnownThings catalogue.now context.now.seat result }
{
    repeated_values_fit_their_body();
    named_patrons_fit_their_body();
    match read_with(profile_of(extensions), body) {
        Reading::Standard(Ok(request)) => message_read(catalogue, context, &request),
        Reading::Standard(Err(Unreadable::Login)) => {
            Message::Session(SessionMessage::Login(None))
        }
        Reading::Standard(Err(Unreadable::Desk(message))) => {
            let values = unreadable_values(&message);
            Message::Desk(desk_message(catalogue, context, &message, &values))
        }
        Reading::Patron(read) => Message::Patron(patron_message(catalogue, context, &read)),
    }
}

/// The message that a request is.
fn message_read<'a, A: Allocator + Copy>(
    catalogue: &Catalogue<A>,
    context: &MessageContext<'a>,
    request: &Request<'a>,
) -> Message<'a>
    requires login { ForSome context.now.login (IsKnownLogin (facts_of catalogue.now)) }
    requires short { repeated_bytes request.now ≤ 1024 }
    ensures message { IsRequestAs catalogue.now context.now request.now result }
    ensures known { NamesKnownThings catalogue.now context.now.seat result }
{
    match request {
        Request::Login(request) => {
            Message::Session(SessionMessage::Login(login_made(catalogue, request)))
        }
        Request::Status => Message::Session(SessionMessage::Status),
        Request::Checkout(request) => {
            let values = checkout_values(request);
            Message::Desk(desk_message(catalogue, context, request, &values))
        }
        Request::Checkin(request) => {
            let values = checkin_values(request);
            Message::Desk(desk_message(catalogue, context, request, &values))
        }
        Request::Hold(request) => {
            let values = hold_values(request);
            Message::Desk(desk_message(catalogue, context, request, &values))
        }
        Request::Renew(request) => {
            let values = renew_values(request);
            Message::Desk(desk_message(catalogue, context, request, &values))
        }
        Request::Item(request) => {
            let values = item_values(request);
            Message::Desk(desk_message(catalogue, context, request, &values))
        }
        Request::Resend => Message::Session(SessionMessage::Resend),
        Request::Unsupported => Message::Session(SessionMessage::Unsupported),
    }
}
