//! How terminals are to be served.

use hd_session::Extensions;

/// What the server does with a connection that comes while as many are served as there are workers.
#[derive(Clone, Copy, Debug, PartialEq, Eq)]
pub enum Beyond {
    /// Has it wait until another ends.
    Wait,
    /// Closes it.
    TurnAway,
}

/// How terminals are to be served.
#[derive(Clone, Copy)]
pub struct Options<'a> {
    /// How many connections are served at once, each by a thread of its own: 1 to 9,999.
    pub workers: u32,
    /// What the server does with a connection beyond them.
    pub beyond: Beyond,
    /// After how many connections the hall is closed. With 0 it never is.
    pub connections: u32,
    /// After how many seconds a connection is dropped that sends nothing, or takes nothing. With 0 it never
    /// is.
    pub idle: u32,
    /// The extensions of each session's messages, if any are on.
    pub extensions: Option<&'a Extensions>,
    /// Whether a line feed is sent after the carriage return of each reply.
    pub has_line_feeds: bool,
    /// How many days the date of a message may be from the server's before that is reported, if it is at all.
    pub days_off: Option<u32>,
}
