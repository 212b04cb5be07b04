//! What the help of the commands that ask a server at its door says.

/// What `status` does, in a line.
pub(crate) const STATUS_ABOUT: &str = "Prints whether a server can do its work, and its numbers";

/// What `status` does.
pub(crate) const STATUS: &str = "Prints whether a server can do its work, and its numbers

`status` asks the server at the door. The first line is its health: ok, or why it can do no turn. The numbers
come after it, one a line: the turns and surviving commands of its journal, the numbers that are left, the
connections, the bytes of the journal's file, how long it took to write the last turn, and the turns by kind
and outcome since the server started.";

/// An example of `status`, and its exit statuses.
pub(crate) const STATUS_EXAMPLE: &str = "Example:

  $ holddesk status --door /run/holddesk/door | head -n 1
  health: ok

Exit status: 0 if it can do its work; 1 if it can't, or after a fault, printed as one line (`no server listens
at PATH`, and others, which docs/faults.md has with what to do); 2 if the command line is refused.";

/// What `stop` does, in a line.
pub(crate) const STOP_ABOUT: &str = "Ends a server, and waits until it has ended";

/// What `stop` does.
pub(crate) const STOP: &str = "Ends a server, and waits until it has ended

The server at the door takes no more connections, and answers the turns that are under way. Its connections
end. It compares all that they were answered with the journal, and puts all turns of a journal's file into
that one file, so that it can be copied without its log.";

/// An example of `stop`, and its exit statuses.
pub(crate) const STOP_EXAMPLE: &str = "Example:

  $ holddesk stop --door /run/holddesk/door
  the server has ended

Exit status: 0 if it has ended (its own last line and status say whether well); 1 after a fault, printed as
one line (`no server listens at PATH`, and others, which docs/faults.md has with what to do); 2 if the command
line is refused.";
