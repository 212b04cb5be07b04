//! Serves terminals over TCP on the loopback, and says of each row whether it went as it is to.
//!
//! In each row a server of its own has a port that the system gives; the terminals connect first, and what
//! they say and hear is played beside the server. A row waits for what has to happen, some seconds at most.

mod failed_accept;
mod full_disk;
mod lines;
mod server;
mod slow_gate;
mod terminal;
mod two_connections;
mod unwritten_reply;
mod unwritten_turn;
mod waiting;

use crate::verdict::tell;
use std::io;
use std::sync::Wait;
use std::thread::Threads;
use std::time::Clock;

/// A row, with a gate, a keeper or a port of its own.
#[derive(Clone, Copy)]
enum Row {
    TwoConnections,
    TwoAtOneWorker,
    UnwrittenReply,
    UnwrittenTurn,
    UnwrittenBehindTheLast,
    UnwrittenBoth,
    SlowGate,
    FailedAccept,
}

static ROWS: [(&str, Row); 8] = [
    ("two connections", Row::TwoConnections),
    ("two connections at one worker", Row::TwoAtOneWorker),
    ("a reply that can't be written", Row::UnwrittenReply),
    ("a turn that can't be written", Row::UnwrittenTurn),
    (
        "the same behind the last connection",
        Row::UnwrittenBehindTheLast,
    ),
    (
        "a turn and a reply before it that can't be written",
        Row::UnwrittenBoth,
    ),
    ("a gate before each turn, and a slow one", Row::SlowGate),
    ("a failed accept", Row::FailedAccept),
];

/// Plays each row, and says whether it went as it is to. Servers are started by a handle that has a clock.
pub(crate) fn play<R: Threads + Wait + Clock + Sync>(rt: &R, host: &HostRuntime) -> io::Result<()> {
    for (name, row) in rows() {
        tell(host, name, row.goes(rt, host) == Some(true))?;
    }
    Ok(())
}

/// The rows.
fn rows() -> &'static [(&'static str, Row)] {
    &ROWS
}

impl Row {
    /// Whether it goes as it is to. None where it can't be played.
    fn goes<R: Threads + Wait + Clock + Sync>(self, rt: &R, host: &HostRuntime) -> Option<bool> {
        match self {
            Row::TwoConnections => two_connections::goes(rt, host),
            Row::TwoAtOneWorker => two_connections::waits(rt, host),
            Row::UnwrittenReply => unwritten_reply::goes(rt, host),
            Row::UnwrittenTurn => unwritten_turn::goes(rt, host, 0),
            Row::UnwrittenBehindTheLast => unwritten_turn::goes(rt, host, 2),
            Row::UnwrittenBoth => unwritten_reply::goes_at_a_full_disk(rt, host),
            Row::SlowGate => slow_gate::goes(rt, host),
            Row::FailedAccept => failed_accept::goes(rt, host),
        }
    }
}
