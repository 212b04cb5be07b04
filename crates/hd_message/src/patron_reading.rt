//! Reading the body of a message where patron messages may be read.
ghost use Rattle.std.specs.Prelude.{◌≡◌, codes, take, true, is_none, IfNone, IfSome, IfErr, IfOk};
ghost use Rattle.std.specs.Option.{option_copied};
ghost use Rattle.hd_message.specs.PatronReading.{HasNoPatronCode, IsPatronMessage, IsReading, IsStandardBody};
ghost use Rattle.hd_message.specs.PatronReading.{IsUnreadablePatron, StatesPatron, is_unreadable_patron};
ghost use Rattle.hd_message.specs.PatronTable.{language_in, patron_code, patron_date_start, patron_fields};
ghost use Rattle.hd_message.specs.PatronTable.{patron_fixed, patron_width};
ghost use Rattle.hd_message.specs.Table.{date_at};
ghost use Rattle.hd_message.specs.Values.{first_value};

use crate::patron_kind::PatronKind;
use crate::patron_messages::patron_request_of_parts;
use crate::patron_request::{PatronRequest, UnreadablePatron};
use crate::patron_table::{patron_date_place, patron_kind_of, patron_width};
use crate::profile::Profile;
use crate::reading::read;
use crate::request::Request;
use crate::unreadable::Unreadable;
use crate::values::first_values;

/// What a body is read as: a request of the standard profile or a patron message, or why it can't be read.
#[derive(Clone, Copy)]
pub enum Reading<'a> {
    /// What `read` answers.
    Standard(Result<Request<'a>, Unreadable<'a>>),
    /// A patron message, or what its refusal prints of it where it can't be read.
    Patron(Result<PatronRequest<'a>, UnreadablePatron<'a>>),
}

/// What a body is read as under a profile: a patron message where it has the code of one and these are read,
/// and else what `read` answers.
///
/// The body is a message without its trailer and carriage return. Every value is the slice of the body after
/// the first of its identifiers. It looks nothing up, reads no date and takes no memory.
pub fn read_with(profile: Profile, body: &[u8]) -> Reading<'_>
    ensures { IsReading profile body.now result }
{
    match patron_kind(profile, body) {
        Some(kind) => Reading::Patron(read_patron(kind, body)),
        None => Reading::Standard(read(body)),
    }
}

/// The kind of a body's message, if it is a patron message and these are read.
fn patron_kind(profile: Profile, body: &[u8]) -> Option<PatronKind>
    ensures found { IfSome result (λ kind. (profile.patron_messages ≡ true)
        × (take 2 body.now ≡ patron_code kind)) }
    ensures none { IfNone result (IsStandardBody profile body.now) }
{
    if profile.patron_messages {
        patron_kind_in(body)
    } else {
        None
    }
}

/// The kind of a body's message, if it is a patron message.
fn patron_kind_in(body: &[u8]) -> Option<PatronKind>
    ensures found { IfSome result (λ kind. take 2 body.now ≡ patron_code kind) }
    ensures none { IfNone result (HasNoPatronCode body.now) }
{
    let [first, second, ..] = body else {
        return None;
    };
    patron_kind_of([*first, *second])
}

/// The patron message of a body with the code of this kind.
fn read_patron(kind: PatronKind, body: &[u8]) -> Result<PatronRequest<'_>, UnreadablePatron<'_>>
    requires { take 2 body.now ≡ patron_code kind }
    ensures request { IfOk result (IsPatronMessage body.now) }
    ensures unreadable { IfErr result (IsUnreadablePatron body.now) }
{
    match patron_request(kind, body) {
        Some(request) => Ok(request),
        None => Err(unreadable_patron(kind, body)),
    }
}

/// The patron message of this kind, if it is readable.
fn patron_request(kind: PatronKind, body: &[u8]) -> Option<PatronRequest<'_>>
    ensures states { IfSome result
        (StatesPatron kind (patron_fixed kind body.now) (patron_fields kind body.now)) }
    ensures unreadable { is_none result ≡ is_unreadable_patron kind body.now }
{
    let (fixed, part) = body.split_at_checked(patron_width(kind))?;
    patron_request_of_parts(kind, fixed, part)
}

/// What the refusal of a patron message prints of it.
fn unreadable_patron(kind: PatronKind, body: &[u8]) -> UnreadablePatron<'_>
    ensures kind { result.kind ≡ kind }
    ensures language { option_copied result.language ≡ language_in kind body.now }
    ensures date { option_copied result.date ≡ date_at body.now (patron_date_start kind) }
    ensures patron { option_copied result.patron ≡ first_value (patron_fields kind body.now) (codes "AA") }
{
    UnreadablePatron {
        kind,
        language: language(kind, body),
        date: date(kind, body),
        patron: first_values(patron_fields(kind, body)).patron,
    }
}

/// The transaction date of a patron message of this kind, where the body has it.
fn date(kind: PatronKind, body: &[u8]) -> Option<&[u8]>
    ensures { option_copied result ≡ date_at body.now (patron_date_start kind) }
{
    let place = patron_date_place(kind);
    body.get(place..place + 18)
}

/// The language of a patron message that has one, where the body is long enough for it.
fn language(kind: PatronKind, body: &[u8]) -> Option<&[u8]>
    ensures { option_copied result ≡ language_in kind body.now }
{
    match kind {
        PatronKind::Status | PatronKind::Information => body.get(2..5),
        _ => None,
    }
}

/// What follows the fixed part of a patron message; nothing where that is short.
fn patron_fields(kind: PatronKind, body: &[u8]) -> &[u8]
    ensures { result.now ≡ patron_fields kind body.now }
{
    match body.split_at_checked(patron_width(kind)) {
        Some((_, part)) => part,
        None => &[],
    }
}
