//! Turns as values.

ghost use Rattle.std.specs.Prelude.{◌≡◌, ◌↔◌, Some, IsTrue};
ghost use Rattle.hd_rules.specs.Turns.{kept_of};
ghost use Rattle.hd_rules.specs.Machine.{kept_reply};
ghost use Rattle.hd_rules.specs.Messages.{is_query};
ghost use Rattle.hd_journal.specs.Shown.{turn_shown};

use crate::ask::OwnedAsk;
use crate::line::{same_line, same_lines};
use crate::turn::TurnRef;
use hd_rules::{Asked, TurnReply, same_asked, same_turn_reply};
use std::alloc::Allocator;
use std::marker::Model;

/// A turn as a value: what the seat's terminal asked, with a copy of the line where that is kept, and the
/// reply.
///
/// It is made by `OwnedAsk::with_reply`.
#[derive(Drop)]
pub struct Entry<A: Allocator> {
    pub(crate) ask: OwnedAsk<A>,
    pub(crate) reply: TurnReply,
}

impl<A: Allocator> Model for Entry<A> {
    ghost use Rattle.hd_rules.specs.Journal.{Turn};

    ghost Value = { Turn };

    ghost view = { λ e. record { seat = e.ask.seat; message = e.ask.message; reply = e.reply } };
}

impl<A: Allocator> Entry<A> {
    /// The turn, with its line lent.
    pub fn show(&self) -> TurnRef<'_>
        ensures { turn_shown result ≡ self.now }
    {
        TurnRef {
            seat: self.ask.seat,
            terminal: self.ask.terminal,
            asked: self.ask.asked,
            line: self.ask.line(),
            reply: self.reply,
        }
    }

    /// Whether this is that turn: the same seat, terminal, question, line and reply.
    pub fn is_of(&self, turn: &TurnRef<'_>) -> bool
        ensures { IsTrue result ↔ (turn_shown turn.now ≡ self.now) }
    {
        self.ask.seat == turn.seat
            && self.ask.terminal == turn.terminal
            && same_asked(&self.ask.asked, &turn.asked)
            && same_lines(self.ask.line(), turn.line)
            && same_turn_reply(&self.reply, &turn.reply)
    }

    /// Whether two entries are the same turn.
    pub fn is_same(&self, other: &Entry<A>) -> bool
        ensures { IsTrue result ↔ (self.now ≡ other.now) }
    {
        other.is_of(&self.show())
    }

    /// Its reply, where it asked this with this line, and `None` otherwise.
    pub(crate) fn reply_to(&self, asked: &Asked, line: &[u8]) -> Option<TurnReply>
        ensures { result
            ≡ kept_reply (kept_of self.now.message.line self.now.message.asked self.now.reply)
            asked.now (Some line.now) }
    {
        let kept = self.ask.line()?;
        if same_asked(&self.ask.asked, asked) && same_line(kept, line) {
            Some(self.reply)
        } else {
            None
        }
    }

    /// Whether it asked for no change.
    pub(crate) fn is_query(&self) -> bool
        ensures { result ≡ is_query self.now.message.asked }
    {
        self.ask.is_query()
    }
}
