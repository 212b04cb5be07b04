//! Messages, as they ask nothing of the desk or are one ask of it.

use crate::login::Login;
use crate::patron_message::PatronMessage;
use crate::repeated::RepeatedValues;
use hd_journal::Ask;
use hd_message::DeskKind;
use hd_rules::Refusal;

/// A message that asks something of the desk, with its dates read and its names looked up.
#[derive(Clone, Copy)]
pub(crate) struct DeskMessage<'a> {
    /// What kind of message it is.
    pub(crate) kind: DeskKind,
    /// What its reply repeats of it.
    pub(crate) repeated: RepeatedValues<'a>,
    /// What it asks, or the first refusal by the session, its dates and its names.
    pub(crate) asks: Result<Ask<'a>, Refusal>,
}

/// A message that asks nothing of the desk: its session answers it alone.
#[derive(Clone, Copy)]
pub(crate) enum SessionMessage {
    /// 93, with the login that it makes; nothing where it isn't taken.
    Login(Option<Login>),
    /// 99.
    Status,
    /// 97.
    Resend,
    /// A message that isn't supported, or a body shorter than a code.
    Unsupported,
}

/// A message: it asks nothing of the desk, or is one ask of it, or is a patron message.
#[derive(Clone, Copy)]
pub(crate) enum Message<'a> {
    /// 93, 99, 97, or one that isn't supported.
    Session(SessionMessage),
    /// 11, 09, 15, 29 or 17.
    Desk(DeskMessage<'a>),
    /// 23, 63, 35, 01, 37 or 65, where patron messages are read.
    Patron(PatronMessage<'a>),
}
