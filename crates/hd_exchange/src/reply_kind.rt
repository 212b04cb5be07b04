//! Which reply a message gets.

/// Which reply a message gets.
#[derive(Clone, Copy, PartialEq, Eq, Debug)]
pub enum ReplyKind {
    /// Its reply.
    Reply,
    /// The last reply of the session once more.
    LastReply,
    /// That the line is to be sent again: a 96.
    SendAgain,
}
