//! Reading patron messages.
ghost use Rattle.std.specs.Prelude.{◌≡◌, ◌==◌, ◌+◌, ◌≤◌, codes, length, position, IfSome, is_none};
ghost use Rattle.hd_message.specs.PatronReading.{StatesPatron};
ghost use Rattle.hd_message.specs.PatronRequests.{IsCard, IsPatronInformation, IsPatronStatus};
ghost use Rattle.hd_message.specs.PatronRequests.{summary_of};
ghost use Rattle.hd_message.specs.PatronTable.{patron_date_start, patron_width};
ghost use Rattle.hd_message.specs.Values.{lacks};

use crate::patron_kind::PatronKind;
use crate::patron_request::{
    CardRequest, PatronInformationRequest, PatronRequest, PatronStatusRequest,
};
use crate::patron_table::patron_date_place;
use crate::values::{first_values, unless_empty};
use hd_rules::Summary;

/// The patron message that a fixed part and fields state, if they are readable: AA isn't missing.
pub(crate) fn patron_request_of_parts<'a>(
    kind: PatronKind,
    fixed: &'a [u8],
    part: &'a [u8],
) -> Option<PatronRequest<'a>>
    requires { length fixed.now ≡ patron_width kind }
    ensures states { IfSome result (StatesPatron kind fixed.now part.now) }
    ensures incomplete { is_none result ≡ lacks part.now (codes "AA") }
{
    match kind {
        PatronKind::Status => Some(PatronRequest::Status(status(fixed, part)?)),
        PatronKind::Information => Some(PatronRequest::Information(information(fixed, part)?)),
        PatronKind::EndSession => Some(PatronRequest::EndSession(card(kind, fixed, part)?)),
        PatronKind::Block => Some(PatronRequest::Block(card(kind, fixed, part)?)),
        PatronKind::FeePaid => Some(PatronRequest::FeePaid(card(kind, fixed, part)?)),
        PatronKind::RenewAll => Some(PatronRequest::RenewAll(card(kind, fixed, part)?)),
    }
}

/// The question whether a patron may borrow, if it is readable.
fn status<'a>(fixed: &'a [u8], part: &'a [u8]) -> Option<PatronStatusRequest<'a>>
    requires { length fixed.now ≡ 23 }
    ensures held { IfSome result (IsPatronStatus fixed.now part.now) }
    ensures unreadable { is_none result ≡ lacks part.now (codes "AA") }
{
    let values = first_values(part);
    let patron = values.patron?;
    Some(PatronStatusRequest {
        language: &fixed[2..5],
        date: &fixed[5..23],
        patron,
        password: unless_empty(values.patron_password),
    })
}

/// The question what a patron has, if it is readable.
fn information<'a>(fixed: &'a [u8], part: &'a [u8]) -> Option<PatronInformationRequest<'a>>
    requires { length fixed.now ≡ 33 }
    ensures held { IfSome result (IsPatronInformation fixed.now part.now) }
    ensures unreadable { is_none result ≡ lacks part.now (codes "AA") }
{
    let values = first_values(part);
    let patron = values.patron?;
    Some(PatronInformationRequest {
        language: &fixed[2..5],
        date: &fixed[5..23],
        summary: summary(&fixed[23..33]),
        patron,
        password: unless_empty(values.patron_password),
        first: unless_empty(values.first_item),
        last: unless_empty(values.last_item),
    })
}

/// The message of this kind that names a card, if it is readable.
fn card<'a>(kind: PatronKind, fixed: &'a [u8], part: &'a [u8]) -> Option<CardRequest<'a>>
    requires { patron_date_start kind + 18 ≤ length fixed.now }
    ensures held { IfSome result (IsCard kind fixed.now part.now) }
    ensures unreadable { is_none result ≡ lacks part.now (codes "AA") }
{
    let values = first_values(part);
    let patron = values.patron?;
    let place = patron_date_place(kind);
    Some(CardRequest {
        date: &fixed[place..place + 18],
        patron,
    })
}

/// The list that a summary wants: the one of its first `Y`, if there is one.
fn summary(text: &[u8]) -> Option<Summary>
    ensures { result ≡ summary_of text.now }
{
    match first_yes(text) {
        Some(0) => Some(Summary::HoldItems),
        Some(1) => Some(Summary::OverdueItems),
        Some(2) => Some(Summary::ChargedItems),
        Some(3 | 4) => Some(Summary::Empty),
        Some(5) => Some(Summary::UnavailableHolds),
        _ => None,
    }
}

/// The place of the first `Y`, if there is one.
fn first_yes(text: &[u8]) -> Option<usize>
    ensures { result ≡ position (λ byte. byte == 89) text.now }
{
    text.iter().position(|byte| *byte == b'Y')
}
