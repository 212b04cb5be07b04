//! A journal's turns by kind and outcome, counted look by look.
ghost use Rattle.std.specs.Prelude.{◌≡◌, ◌<◌, ◌+◌, IfOk, length, min, option_map};
ghost use Rattle.hd_journal.specs.Shown.{turn_shown};
ghost use Rattle.hd_list_pages.specs.Counting.{GoesOn, IsOf, last_in, noted, tallies_then};
ghost use Rattle.hd_list_pages.specs.Tallies.{no_turns, repeats};

use crate::tally::{ending_in, is_query, kind_of, no_turns, repeats, tallied};
use hd_http::Turns;
use hd_journal::{Journal, TurnRef};
use hd_rules::TerminalNo;
use std::alloc::{AllocError, Allocator, Global};

/// How many turns a look goes through at most.
pub const MOST_TALLIED: usize = 512;

/// The turns of a journal by kind and outcome, as far as they have been counted. It has the room for it.
#[derive(Drop)]
pub(crate) struct TurnTallies {
    /// The turns behind so many have tallies.
    pub(crate) begun: usize,
    /// How many turns have been gone through.
    pub(crate) place: usize,
    /// By terminal the number of the last of them that is no query.
    pub(crate) last: Vec<Option<usize>>,
    /// The tallies.
    pub(crate) turns: Turns,
}

impl TurnTallies {
    /// None is counted yet. Those behind so many are to have tallies, of so many terminals.
    ///
    /// # Errors
    /// There is no memory for the terminals.
    pub(crate) fn new(
        alloc: Global,
        begun: usize,
        terminals: usize,
    ) -> Result<TurnTallies, AllocError>
        ensures begun { IfOk result (λ tallied. tallied.begun ≡ begun) }
        ensures place { IfOk result (λ tallied. tallied.place ≡ 0) }
        ensures turns { IfOk result (λ tallied. tallied.turns ≡ no_turns) }
        ensures room { IfOk result (λ tallied. length tallied.last.items ≡ terminals) }
    {
        Ok(TurnTallies {
            begun,
            place: 0,
            last: vec![in alloc; None; terminals]?,
            turns: no_turns(),
        })
    }

    /// Goes on in the journal by as many turns as a look goes through.
    pub(crate) fn go_on<A: Allocator + Copy>(&mut self, journal: &Journal<A>)
        ensures { GoesOn journal.now.turns self.old self.new }
    {
        let end = last_tallied(self.place, journal.front());
        for place in self.place..end {
            self.count(journal, place + 1);
        }
    }

    /// Counts the turn of this number, which is the next.
    fn count<A: Allocator + Copy>(&mut self, journal: &Journal<A>, number: usize)
        requires next { number ≡ self.old.place + 1 }
        requires within { self.old.place < length journal.now.turns }
        ensures begun { self.new.begun ≡ self.old.begun }
        ensures place { self.new.place ≡ number }
        ensures on { IsOf journal.now.turns self.old → IsOf journal.now.turns self.new }
    {
        let Some(turn) = journal.turn_at(number) else {
            unreachable!()
        };
        self.turns = self.tallies_with(journal, &turn, number);
        note(&mut self.last, &turn, number);
        self.place = number;
    }

    /// The tallies with the turn of this number, unless it was there at the beginning.
    fn tallies_with<A: Allocator + Copy>(
        &self,
        journal: &Journal<A>,
        turn: &TurnRef<'_>,
        number: usize,
    ) -> Turns
        ensures { result ≡ tallies_then journal.now.turns self.now (turn_shown turn.now) number }
    {
        if number <= self.begun {
            return self.turns;
        }
        let is_repeat = is_repeat(journal, &self.last, turn);
        let ending = ending_in(is_repeat, &turn.reply);
        tallied(kind_of(&turn.asked), ending, &self.turns)
    }
}

/// How far a look goes that goes on from there, of so many turns as there are.
fn last_tallied(place: usize, front: usize) -> usize
    ensures { result ≡ min (place + MOST_TALLIED) front }
{
    match place.checked_add(MOST_TALLIED) {
        Some(end) => end.min(front),
        None => front,
    }
}

/// Whether a turn repeats the last one of its terminal, by the numbers of the last ones.
fn is_repeat<A: Allocator + Copy>(
    journal: &Journal<A>,
    last: &[Option<usize>],
    turn: &TurnRef<'_>,
) -> bool
    ensures { let message = (turn_shown turn.now).message in
        result ≡ repeats (last_in journal.now.turns last.now message.terminal) message }
{
    match last_of(journal, last, turn.terminal) {
        Some(before) => repeats(&before, turn),
        None => false,
    }
}

/// The last turn of a terminal, by the numbers of the last ones.
fn last_of<'a, A: Allocator + Copy>(
    journal: &'a Journal<A>,
    last: &[Option<usize>],
    terminal: TerminalNo,
) -> Option<TurnRef<'a>>
    ensures { option_map turn_shown result ≡ last_in journal.now.turns last.now terminal }
{
    let number = (*last.get(terminal.number() as usize)?)?;
    journal.turn_at(number)
}

/// Notes that the turn has this number, where it is no query.
fn note(last: &mut Vec<Option<usize>>, turn: &TurnRef<'_>, number: usize)
    ensures room { length last.new.items ≡ length last.old.items }
    ensures noted { let shown = turn_shown turn.now in shown.message.terminal < length last.old.items
        → last.new.items ≡ noted last.old.items shown number }
{
    if is_query(&turn.asked) {
        return;
    }
    if let Some(place) = last.get_mut(turn.terminal.number() as usize) {
        *place = Some(number);
    }
}
