//! The values of a message that are read and repeated.
use hd_message::DeskKind;

/// The values of a message that asks something of the desk, as far as they are read, or repeated, the same
/// way in all such messages.
#[derive(Clone, Copy)]
pub(crate) struct Values<'a> {
    /// What kind of message it is.
    pub(crate) kind: DeskKind,
    /// The transaction date; nothing where the message is cut short.
    pub(crate) date: Option<&'a [u8]>,
    /// The due date of an off-line checkout or the expiration date of a hold, where it states one.
    pub(crate) other: Option<&'a [u8]>,
    /// AA, the patron identifier, where the reply repeats it.
    pub(crate) patron: Option<&'a [u8]>,
    /// AB, the item identifier, where the reply repeats it.
    pub(crate) copy: Option<&'a [u8]>,
    /// AJ, the title identifier, where the reply repeats it.
    pub(crate) title: Option<&'a [u8]>,
}
