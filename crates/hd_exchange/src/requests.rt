//! Requests that ask something of the desk.
ghost use Rattle.std.specs.Prelude.{◌≡◌, ◌<◌, ◌≤◌, IfOk};
ghost use Rattle.std.specs.Option.{ForSome};
ghost use Rattle.hd_rules.specs.Known.{IsKnown};
ghost use Rattle.hd_catalogue.specs.Contents.{Contents, facts_of};
ghost use Rattle.hd_exchange.specs.Arrivals.{IsKnownLogin};
ghost use Rattle.hd_exchange.specs.Asks.{kind_of};
ghost use Rattle.hd_exchange.specs.Messages.{AreValuesOf, IsAskAt, IsAskable, IsAskedAs, IsMessageOf, Stated};
ghost use Rattle.hd_exchange.specs.Messages.{asked_by, bytes_stated};

use crate::context::MessageContext;
use crate::dates::{Dates, dates_of};
use crate::message::DeskMessage;
use crate::repeated::RepeatedValues;
use crate::values::Values;
use hd_catalogue::Catalogue;
use hd_journal::Ask;
use hd_rules::{Asked, BranchNo, Refusal};
use std::alloc::Allocator;

/// A request that asks something of the desk, or a message that would if it could be read.
pub(crate) trait DeskRequest<A: Allocator + Copy> {
    /// What it states, by the names of a catalogue.
    ghost states: { Contents → Self → Stated };

    /// What it asks at a terminal of the branch `own`, or the first refusal by its dates and its names.
    fn asks(&self, catalogue: &Catalogue<A>, own: BranchNo, dates: &Dates) -> Result<Asked, Refusal>
        requires { own < (facts_of catalogue.now).branches }
        ensures asked { result ≡ (states catalogue.now self.now).asks own dates.now }
        ensures kind { IfOk result (λ asked. kind_of asked ≡ (states catalogue.now self.now).kind) }
        ensures known { IfOk result (IsKnown (facts_of catalogue.now)) };
}

/// The message that a request with these values is.
pub(crate) fn desk_message<'a, A: Allocator + Copy, R: DeskRequest<A>>(
    catalogue: &Catalogue<A>,
    context: &MessageContext<'a>,
    request: &R,
    values: &Values<'a>,
) -> DeskMessage<'a>
    requires login { ForSome context.now.login (IsKnownLogin (facts_of catalogue.now)) }
    requires values { AreValuesOf (R.states catalogue.now request.now) values.now }
    requires short { bytes_stated (R.states catalogue.now request.now) ≤ 1024 }
    ensures message { IsMessageOf catalogue.now context.now (R.states catalogue.now request.now) result }
    ensures known { IsAskable (facts_of catalogue.now) context.now.seat result }
{
    let dates = dates_of(
        &context.present,
        values.date,
        values.other,
        catalogue.offset(),
    );
    let date = dates.printed;
    DeskMessage {
        kind: values.kind,
        repeated: RepeatedValues {
            date,
            patron: values.patron,
            copy: values.copy,
            title: values.title,
        },
        asks: session_asks(catalogue, context, request, &dates),
    }
}

/// What a session asks by a request, or the first refusal.
fn session_asks<'a, A: Allocator + Copy, R: DeskRequest<A>>(
    catalogue: &Catalogue<A>,
    context: &MessageContext<'a>,
    request: &R,
    dates: &Dates,
) -> Result<Ask<'a>, Refusal>
    requires login { ForSome context.now.login (IsKnownLogin (facts_of catalogue.now)) }
    ensures asked { IsAskedAs context.now
        (asked_by context.now.login (R.states catalogue.now request.now) dates.now) result }
    ensures ask { IfOk result (IsAskAt (facts_of catalogue.now) context.now.seat
        (R.states catalogue.now request.now).kind) }
{
    let login = context.login.ok_or(Refusal::NotLoggedIn)?;
    let asked = request.asks(catalogue, login.branch, dates)?;
    Ok(context.ask(&login, asked))
}
