//! The table of patron messages: their codes, and the widths of their fixed parts.
ghost use Rattle.std.specs.Prelude.{◌≡◌, ◌≢◌, ◌≤◌, IfNone, IfSome};
ghost use Rattle.hd_message.specs.PatronTable.{patron_code, patron_date_start, patron_width};

use crate::patron_kind::PatronKind;

/// The kind of a patron message by its code, if it is one.
pub(crate) fn patron_kind_of(code: [u8; 2]) -> Option<PatronKind>
    ensures found { IfSome result (λ kind. code ≡ patron_code kind) }
    ensures none { IfNone result ((kind : PatronKind) → code ≢ patron_code kind) }
{
    match &code {
        b"23" => Some(PatronKind::Status),
        b"63" => Some(PatronKind::Information),
        b"35" => Some(PatronKind::EndSession),
        b"01" => Some(PatronKind::Block),
        b"37" => Some(PatronKind::FeePaid),
        b"65" => Some(PatronKind::RenewAll),
        _ => None,
    }
}

/// How many bytes the code and the fixed part of a patron message have.
pub(crate) fn patron_width(kind: PatronKind) -> usize
    ensures { result ≡ patron_width kind }
{
    match kind {
        PatronKind::EndSession | PatronKind::RenewAll => 20,
        PatronKind::Block => 21,
        PatronKind::Status => 23,
        PatronKind::FeePaid => 27,
        PatronKind::Information => 33,
    }
}

/// The place of a patron message's transaction date.
pub(crate) fn patron_date_place(kind: PatronKind) -> usize
    ensures place { result ≡ patron_date_start kind }
    ensures front { result ≤ 5 }
{
    match kind {
        PatronKind::EndSession | PatronKind::FeePaid | PatronKind::RenewAll => 2,
        PatronKind::Block => 3,
        PatronKind::Status | PatronKind::Information => 5,
    }
}
