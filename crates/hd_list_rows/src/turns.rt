//! Turns.
ghost use Rattle.std.specs.Prelude.{◌≡◌, ◌+◌, ◌<◌, ◌≤◌};
ghost use Rattle.hd_journal.specs.Shown.{turn_shown};
ghost use Rattle.hd_list_rows.specs.Pages.{most_turns, page_within};
ghost use Rattle.hd_list_rows.specs.Rows.{turn_row, turn_rows};

use crate::page::{MOST_ROWS, Page};
use crate::row::Row;
use hd_journal::{Journal, TurnRef};
use std::alloc::Allocator;

/// Shows the turns behind so many, at most a limit of them.
pub(crate) fn show_turns<A: Allocator + Copy>(
    journal: &Journal<A>,
    after: u64,
    limit: u64,
    page: &mut Page,
)
    ensures { page.new ≡ page_within after (most_turns limit) (turn_rows 1 journal.now.turns) }
{
    page.clear();
    let front = journal.front() as u64;
    let end = last_shown(after, limit, front);
    for place in after..end {
        let Some(turn) = journal.turn_at(place as usize + 1) else {
            unreachable!()
        };
        page.put(&turn_row(place + 1, &turn));
    }
    if end < front {
        page.go_on(end);
    }
}

/// How far turns are shown, of so many as there are.
fn last_shown(after: u64, limit: u64, front: u64) -> u64
    ensures within { result ≤ front }
    ensures far { result < front → result ≡ after + most_turns limit }
    ensures all { front ≤ result → front ≤ after + most_turns limit }
{
    match after.checked_add(limit.min(MOST_ROWS as u64)) {
        Some(end) => end.min(front),
        None => front,
    }
}

/// A turn and its number.
fn turn_row(number: u64, turn: &TurnRef<'_>) -> Row
    ensures { result ≡ turn_row number (turn_shown turn.now) }
{
    Row::Turn {
        number,
        seat: turn.seat,
        terminal: turn.terminal,
        asked: turn.asked,
        reply: turn.reply,
    }
}
