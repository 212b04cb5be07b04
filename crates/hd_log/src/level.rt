//! The levels of the log.

/// Which events are reported.
#[derive(Clone, Copy, Debug, PartialEq, Eq, PartialOrd, Ord)]
pub enum Level {
    /// None.
    Quiet,
    /// Those of connections, of the journal and of the server.
    Events,
    /// The same, and each line that a terminal sends, with its reply.
    Messages,
}
