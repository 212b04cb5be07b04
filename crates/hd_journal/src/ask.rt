//! What is asked in one turn, with a copy of the line.

ghost use Rattle.std.specs.Prelude.{◌≡◌, None, IfOk, IsOk, option_map};
ghost use Rattle.hd_rules.specs.Messages.{is_query, message_of, turn_with_reply};

use crate::entry::Entry;
use crate::line::{Line, bytes_if_any, copy_if_any};
use hd_rules::{Ask, Asked, SeatNo, TerminalNo, TurnReply};
use std::alloc::{AllocError, Allocator};
use std::marker::Model;

/// What a seat's terminal asks in one turn, with a copy of its line.
#[derive(Drop)]
pub struct OwnedAsk<A: Allocator> {
    pub(crate) seat: SeatNo,
    pub(crate) terminal: TerminalNo,
    pub(crate) asked: Asked,
    line: Option<Line<A>>,
}

impl<A: Allocator> Model for OwnedAsk<A> {
    ghost use Rattle.hd_rules.specs.Messages.{SeatMessage};

    ghost Value = { SeatMessage };

    ghost view = { λ ask. record {
      seat = ask.seat;
      message = record { terminal = ask.terminal; asked = ask.asked; line = ask.line };
    } };
}

impl<A: Allocator> OwnedAsk<A> {
    /// What this asks, with a copy of its line.
    ///
    /// # Errors
    /// Out of memory, which only a line needs.
    pub fn of(alloc: A, ask: &Ask<'_>) -> Result<OwnedAsk<A>, AllocError>
        ensures same { IfOk result (λ own. own ≡ message_of ask.now) }
        ensures no_line { ask.now.line ≡ None → IsOk result }
    {
        let line = copy_if_any(alloc, ask.line())?;
        Ok(OwnedAsk {
            seat: ask.seat(),
            terminal: ask.terminal(),
            asked: *ask.what_is_asked(),
            line,
        })
    }

    /// The turn of this, with its reply. Nothing is copied.
    pub fn with_reply(self, reply: TurnReply) -> Entry<A>
        ensures { result ≡ turn_with_reply self reply }
    {
        Entry { ask: self, reply }
    }

    /// The terminal that asks.
    pub(crate) fn terminal(&self) -> TerminalNo
        ensures { result ≡ self.now.message.terminal }
    {
        self.terminal
    }

    /// Whether it asks for no change.
    pub(crate) fn is_query(&self) -> bool
        ensures { result ≡ is_query self.now.message.asked }
    {
        match &self.asked {
            Asked::Command(_) | Asked::Cancel(_) => false,
            Asked::Item(_) => true,
        }
    }

    /// The line, where there is one.
    pub(crate) fn line(&self) -> Option<&[u8]>
        ensures { option_map (λ bytes. bytes.now) result ≡ self.now.message.line }
    {
        bytes_if_any(&self.line)
    }
}
