//! Reading the body of a message.
ghost use Rattle.std.specs.Prelude.{◌≡◌, ◌≢◌, ◌≤◌, length, take, codes, is_none, IfNone, IfSome, IfErr, IfOk};
ghost use Rattle.std.specs.Option.{option_copied};
ghost use Rattle.hd_message.specs.Reading.{IsRequest, IsUnreadable, StatesRequest, is_incomplete};
ghost use Rattle.hd_message.specs.Reading.{is_unreadable};
ghost use Rattle.hd_message.specs.Requests.{IsLogin};
ghost use Rattle.hd_message.specs.Table.{code_of, date_at, date_start, fields_part, fixed_part, fixed_width};
ghost use Rattle.hd_message.specs.Values.{filled_value, first_value};
ghost use Rattle.hd_message.specs.declared.kind.Kind.TheVariants.{Desk, Login};

use crate::hold::hold;
use crate::kind::{DeskKind, Kind};
use crate::messages::{checkin, checkout, item, login, renew};
use crate::request::{LoginRequest, Request};
use crate::table::{date_place, kind_of, width};
use crate::unreadable::{Unreadable, UnreadableMessage};
use crate::values::{first_values, unless_empty};

/// How many bytes a date has (SIP2 2.00, date fields).
const DATE: usize = 18;

/// The request of a body, or what its refusal prints of it where it can't be read (docs/protocol.md,
/// "Messages read").
///
/// The body is a message without its trailer and carriage return. Every value is the slice of the body
/// after the first of its identifiers. It looks nothing up, reads no date and takes no memory.
pub fn read(body: &[u8]) -> Result<Request<'_>, Unreadable<'_>>
    ensures request { IfOk result (IsRequest body.now) }
    ensures unreadable { IfErr result (IsUnreadable body.now) }
{
    let Some(kind) = kind(body) else {
        return Ok(Request::Unsupported);
    };
    match kind {
        Kind::Status => Ok(Request::Status),
        Kind::Resend => Ok(Request::Resend),
        Kind::Login => match login_of(body) {
            Some(login) => Ok(Request::Login(login)),
            None => Err(Unreadable::Login),
        },
        Kind::Desk(kind) => match request(kind, body) {
            Some(request) => Ok(request),
            None => Err(Unreadable::Desk(unreadable(kind, body))),
        },
    }
}

/// The kind of a body's message, if it is one that is read: then the body has its code.
fn kind(body: &[u8]) -> Option<Kind>
    ensures found { IfSome result (λ kind. take 2 body.now ≡ code_of kind) }
    ensures whole { IfSome result (λ kind. 2 ≤ length body.now) }
    ensures none { IfNone result ((kind : Kind) → take 2 body.now ≢ code_of kind) }
{
    let [first, second, ..] = body else {
        return None;
    };
    kind_of([*first, *second])
}

/// The login, if it is readable.
fn login_of(body: &[u8]) -> Option<LoginRequest<'_>>
    ensures held { IfSome result (IsLogin (fixed_part Login body.now) (fields_part Login body.now)) }
    ensures unreadable { is_none result ≡ is_unreadable Login body.now }
{
    let (fixed, part) = body.split_at_checked(width(Kind::Login))?;
    login(fixed, part)
}

/// The request of a message of this kind, if it is readable.
fn request(kind: DeskKind, body: &[u8]) -> Option<Request<'_>>
    ensures states { IfSome result
        (StatesRequest (code_of (Desk kind)) (fixed_part (Desk kind) body.now)
        (fields_part (Desk kind) body.now)) }
    ensures unreadable { is_none result ≡ is_unreadable (Desk kind) body.now }
{
    let (fixed, part) = body.split_at_checked(width(Kind::Desk(kind)))?;
    request_of_parts(kind, fixed, part)
}

/// The request that a fixed part and fields state, if they are readable.
fn request_of_parts<'a>(kind: DeskKind, fixed: &'a [u8], part: &'a [u8]) -> Option<Request<'a>>
    requires { length fixed.now ≡ fixed_width (Desk kind) }
    ensures states { IfSome result (StatesRequest (code_of (Desk kind)) fixed.now part.now) }
    ensures incomplete { is_none result ≡ is_incomplete (Desk kind) fixed.now part.now }
{
    match kind {
        DeskKind::Checkout => Some(Request::Checkout(checkout(fixed, part)?)),
        DeskKind::Checkin => Some(Request::Checkin(checkin(fixed, part)?)),
        DeskKind::Hold => Some(Request::Hold(hold(fixed, part)?)),
        DeskKind::Renew => Some(Request::Renew(renew(fixed, part)?)),
        DeskKind::Item => Some(Request::Item(item(fixed, part)?)),
    }
}

/// What the refusal of a message prints of it.
fn unreadable(kind: DeskKind, body: &[u8]) -> UnreadableMessage<'_>
    ensures kind { result.kind ≡ kind }
    ensures date { option_copied result.date ≡ date_at body.now (date_start kind) }
    ensures patron { option_copied result.patron
        ≡ first_value (fields_part (Desk kind) body.now) (codes "AA") }
    ensures copy { option_copied result.copy
        ≡ filled_value (fields_part (Desk kind) body.now) (codes "AB") }
    ensures title { option_copied result.title
        ≡ filled_value (fields_part (Desk kind) body.now) (codes "AJ") }
{
    let values = first_values(fields_part(kind, body));
    UnreadableMessage {
        kind,
        date: date(kind, body),
        patron: values.patron,
        copy: unless_empty(values.copy),
        title: unless_empty(values.title),
    }
}

/// The transaction date of a message of this kind, where the body has it.
fn date(kind: DeskKind, body: &[u8]) -> Option<&[u8]>
    ensures { option_copied result ≡ date_at body.now (date_start kind) }
{
    let place = date_place(kind);
    body.get(place..place + DATE)
}

/// What follows the fixed part of a message; nothing where that is short.
fn fields_part(kind: DeskKind, body: &[u8]) -> &[u8]
    ensures { result.now ≡ fields_part (Desk kind) body.now }
{
    match body.split_at_checked(width(Kind::Desk(kind))) {
        Some((_, part)) => part,
        None => &[],
    }
}
