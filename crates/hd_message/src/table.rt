//! The table of messages: their codes, and the widths of their fixed parts.
ghost use Rattle.std.specs.Prelude.{◌≡◌, ◌≢◌, IfNone, IfSome};
ghost use Rattle.hd_message.specs.Table.{code_of, date_start, fixed_width};

use crate::kind::{DeskKind, Kind};

/// The kind of a message by its code, if it is a message that is read.
pub(crate) fn kind_of(code: [u8; 2]) -> Option<Kind>
    ensures found { IfSome result (λ kind. code ≡ code_of kind) }
    ensures none { IfNone result ((kind : Kind) → code ≢ code_of kind) }
{
    match &code {
        b"93" => Some(Kind::Login),
        b"99" => Some(Kind::Status),
        b"11" => Some(Kind::Desk(DeskKind::Checkout)),
        b"09" => Some(Kind::Desk(DeskKind::Checkin)),
        b"15" => Some(Kind::Desk(DeskKind::Hold)),
        b"29" => Some(Kind::Desk(DeskKind::Renew)),
        b"17" => Some(Kind::Desk(DeskKind::Item)),
        b"97" => Some(Kind::Resend),
        _ => None,
    }
}

/// How many bytes the code and the fixed part of a message have.
pub(crate) fn width(kind: Kind) -> usize
    ensures { result ≡ fixed_width kind }
{
    match kind {
        Kind::Status | Kind::Resend => 2,
        Kind::Login => 4,
        Kind::Desk(DeskKind::Item) => 20,
        Kind::Desk(DeskKind::Hold) => 21,
        Kind::Desk(DeskKind::Checkin) => 39,
        Kind::Desk(DeskKind::Checkout | DeskKind::Renew) => 40,
    }
}

/// The place of a message's transaction date.
pub(crate) fn date_place(kind: DeskKind) -> usize
    ensures { result ≡ date_start kind }
{
    match kind {
        DeskKind::Item => 2,
        DeskKind::Hold | DeskKind::Checkin => 3,
        DeskKind::Checkout | DeskKind::Renew => 4,
    }
}
