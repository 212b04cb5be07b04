//! Turns, as they are shown to others.

ghost use Rattle.std.specs.Prelude.{◌≡◌};
ghost use Rattle.hd_rules.specs.Messages.{message_of, turn_with_reply};
ghost use Rattle.hd_journal.specs.Shown.{turn_shown};

use hd_rules::{Ask, Asked, SeatNo, TerminalNo, TurnReply};

/// A turn that was made.
#[derive(Clone, Copy, PartialEq, Eq, Debug)]
pub struct Turn {
    /// Its number. Turns are counted from 1, in the order of the journal.
    pub at: usize,
    /// Its reply.
    pub reply: TurnReply,
}

impl Turn {
    /// The turn of this number, with this reply.
    pub(crate) fn new(at: usize, reply: TurnReply) -> Turn
        ensures { result ≡ record { at = at; reply = reply } }
    {
        Turn { at, reply }
    }
}

/// A turn that was just made, and whether it asks for a change.
#[derive(Clone, Copy, PartialEq, Eq, Debug)]
pub struct NewTurn {
    /// The turn.
    pub made: Turn,
    /// Whether it is changing: it asks for a change, which may be refused, and wasn't answered already.
    pub is_changing: bool,
}

/// A turn of a journal.
#[derive(Clone, Copy)]
pub struct TurnRef<'a> {
    /// The seat that it came from.
    pub seat: SeatNo,
    /// The terminal that asked.
    pub terminal: TerminalNo,
    /// What it asked.
    pub asked: Asked,
    /// The message's line, where it carried a sequence number.
    pub line: Option<&'a [u8]>,
    /// The reply.
    pub reply: TurnReply,
}

impl<'a> TurnRef<'a> {
    /// The turn of what is asked, with its reply. It lends the asker's own line.
    pub fn of(ask: &Ask<'a>, reply: TurnReply) -> TurnRef<'a>
        ensures { turn_shown result ≡ turn_with_reply (message_of ask.now) reply }
    {
        TurnRef {
            seat: ask.seat(),
            terminal: ask.terminal(),
            asked: *ask.what_is_asked(),
            line: ask.line(),
            reply,
        }
    }
}
