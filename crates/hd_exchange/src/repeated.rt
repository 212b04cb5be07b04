//! The values of a message that its reply prints.

/// What a reply repeats of its message.
#[derive(Clone, Copy)]
pub(crate) struct RepeatedValues<'a> {
    /// The transaction date in local form, or the present where that is missing or unreadable.
    pub(crate) date: [u8; 18],
    /// AA, the patron identifier; nothing where the message has none.
    pub(crate) patron: Option<&'a [u8]>,
    /// AB, the item identifier; nothing where the message has none, and of a hold message where it is empty.
    pub(crate) copy: Option<&'a [u8]>,
    /// AJ, the title identifier; nothing where it is absent or empty.
    pub(crate) title: Option<&'a [u8]>,
}
