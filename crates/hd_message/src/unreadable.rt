//! Messages that can't be read.
use crate::kind::DeskKind;

/// A message that can't be read. A status message and a request for the last reply are read whatever they
/// have.
#[derive(Clone, Copy)]
pub enum Unreadable<'a> {
    /// 93, Login: it is refused.
    Login,
    /// A message that asks something of the desk.
    Desk(UnreadableMessage<'a>),
}

/// A message that asks something of the desk and can't be read, and what its refusal prints of it. Its values
/// are slices of the body.
///
/// Fields begin only after a whole fixed part: where that is short there are none.
#[derive(Clone, Copy)]
pub struct UnreadableMessage<'a> {
    /// What kind of message it is.
    pub kind: DeskKind,
    /// The 18 bytes of the transaction date, where the body is long enough for it.
    pub date: Option<&'a [u8]>,
    /// AA, the patron identifier.
    pub patron: Option<&'a [u8]>,
    /// AB, the item identifier; nothing where it is absent or empty.
    pub copy: Option<&'a [u8]>,
    /// AJ, the title identifier; nothing where it is absent or empty.
    pub title: Option<&'a [u8]>,
}
