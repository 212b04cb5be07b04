//! The log of turns: the turns, and what is kept of each terminal's last changing message.

ghost use Rattle.std.specs.Prelude.{◌≡◌, ◌<◌, ◌+◌, ◌^◌, ◌++◌, ◌∷◌, [], OnOk};
ghost use Rattle.std.specs.Prelude.{length, option_map, slice_get};
ghost use Rattle.hd_rules.specs.Machine.{kept_reply};
ghost use Rattle.hd_journal.specs.Shown.{turn_shown};
ghost use Rattle.hd_journal.specs.TurnLog.{after_turn, kept_by, with_turn};

use crate::ask::OwnedAsk;
use crate::entry::Entry;
use crate::room::reach;
use crate::turn::{Turn, TurnRef};
use hd_blocks::BlockList;
use hd_rules::{TerminalNo, TurnReply};
use std::alloc::{AllocError, Allocator};
use std::marker::Model;

/// The turns, and by terminal the place of its last changing turn.
#[derive(Drop)]
pub(crate) struct TurnLog<A: Allocator> {
    turns: BlockList<Entry<A>, A>,
    places: Vec<Option<usize>, A>,
}

impl<A: Allocator> Model for TurnLog<A> {
    ghost use Rattle.hd_journal.specs.TurnLog.{TurnLog, AreTurns};

    ghost Value = { TurnLog };

    ghost view = { λ log. record {
      turns = log.turns.items;
      places = log.places.items;
      room = log.turns.room;
    } };

    ghost invariant = { λ log. AreTurns log.turns.items log.places.items };
}

impl<A: Allocator + Copy> TurnLog<A> {
    /// No turns.
    pub(crate) fn new(alloc: A) -> TurnLog<A>
        ensures turns { result.turns ≡ [] }
        ensures places { result.places ≡ [] }
    {
        TurnLog {
            turns: BlockList::new(alloc),
            places: Vec::new(alloc),
        }
    }

    /// How many turns there are.
    pub(crate) fn len(&self) -> usize
        ensures { result ≡ length self.now.turns }
    {
        self.turns.len()
    }

    /// The turn at a place, from 0, or `None` where there is none.
    pub(crate) fn turn(&self, place: usize) -> Option<TurnRef<'_>>
        ensures { option_map turn_shown result ≡ slice_get self.now.turns place }
    {
        let turn = self.turns.get(place)?;
        Some(turn.show())
    }

    /// Makes room for one more turn of the terminal.
    pub(crate) fn ready(&mut self, terminal: TerminalNo) -> Result<(), AllocError>
        ensures turns { self.new.turns ≡ self.old.turns }
        ensures kept { kept_by self.new ≡ kept_by self.old }
        ensures room { OnOk result (length self.new.turns < self.new.room) }
        ensures terminal { OnOk result (terminal < length self.new.places) }
        ensures number { OnOk result (length self.new.turns + 1 < 2 ^ 64) }
    {
        self.turns.ready()?;
        reach(&mut self.places, terminal.number() as usize)
    }

    /// The reply to a message that equals what is kept of its terminal's last.
    pub(crate) fn kept_reply(&self, ask: &OwnedAsk<A>) -> Option<TurnReply>
        ensures { result
            ≡ kept_reply (kept_by self.now ask.now.message.terminal)
            ask.now.message.asked ask.now.message.line }
    {
        let line = ask.line()?;
        let place = (*self.places.get(ask.terminal().number() as usize)?)?;
        let turn = self.turns.get(place)?;
        turn.reply_to(&ask.asked, line)
    }

    /// A turn that leaves what is kept.
    pub(crate) fn add_repeat(&mut self, again: Entry<A>) -> Turn
        requires { length self.old.turns < self.old.room }
        ensures turns { self.new.turns ≡ self.old.turns ++ again ∷ [] }
        ensures kept { kept_by self.new ≡ kept_by self.old }
        ensures made { result ≡ record { at = length self.new.turns; reply = again.reply } }
    {
        let reply = again.reply;
        self.turns.push(again);
        Turn::new(self.turns.len(), reply)
    }

    /// A turn that is no repeat: a query leaves what is kept, and of any other is kept what carried a line.
    pub(crate) fn add(&mut self, turn: Entry<A>) -> Turn
        requires room { length self.old.turns < self.old.room }
        requires terminal { turn.message.terminal < length self.old.places }
        ensures turns { self.new.turns ≡ self.old.turns ++ turn ∷ [] }
        ensures kept { kept_by self.new ≡ after_turn turn (kept_by self.old) }
        ensures made { result ≡ record { at = length self.new.turns; reply = turn.reply } }
    {
        if turn.is_query() {
            self.add_repeat(turn)
        } else {
            self.add_change(turn)
        }
    }

    /// A turn of which is kept what carried a line.
    fn add_change(&mut self, turn: Entry<A>) -> Turn
        requires room { length self.old.turns < self.old.room }
        requires terminal { turn.message.terminal < length self.old.places }
        ensures turns { self.new.turns ≡ self.old.turns ++ turn ∷ [] }
        ensures kept { kept_by self.new ≡ with_turn turn (kept_by self.old) }
        ensures made { result ≡ record { at = length self.new.turns; reply = turn.reply } }
    {
        let reply = turn.reply;
        let terminal = turn.ask.terminal().number() as usize;
        let place = self.turns.len();
        self.turns.push(turn);
        self.places[terminal] = Some(place);
        Turn::new(self.turns.len(), reply)
    }
}
