//! How a library stands.
ghost use Rattle.std.specs.Prelude.{◌≡◌};
ghost use Rattle.hd_list_pages.specs.Standing.{state_of, told_of};

use hd_http::{Health, JournalCounts, State, Turns};
use hd_list_rows::Counts;

/// The state of a library whose journal is so, with what is counted of it and of its turns.
pub(crate) fn state_of(health: Health, counts: Option<Counts>, turns: Option<Turns>) -> State
    ensures { result ≡ state_of health counts turns }
{
    State {
        health,
        turns,
        journal: counts.map(told_of),
        connections: None,
        workers_busy: None,
        journal_bytes: None,
        commit_micros: None,
    }
}

/// What is counted of a journal, as a state tells it.
fn told_of(counts: Counts) -> JournalCounts
    ensures { result ≡ told_of counts }
{
    JournalCounts {
        turns: counts.turns,
        last_number: counts.last_number,
        numbers_left: counts.numbers_left,
    }
}
