//! A turn that can't be written.

use crate::serving::lines::{HELD_1_FIRST, HOLD_1, HOLD_2, LOGGED_IN, LOGIN_1, LOGIN_2};
use crate::serving::server::{Row, Scale, is_unwritten_told, two};
use crate::serving::terminal::Terminal;
use hd_serve::Gate;
use std::sync::Wait;
use std::thread::Threads;
use std::time::Clock;

/// Two terminals at a desk that can write one turn, at a gate that lets each turn pass.
#[derive(Drop)]
struct Unwritten;

impl Gate for Unwritten {
    fn before(&self, _session: usize, _turn: usize) {}
}

impl Row for Unwritten {
    fn play(&self, terminals: Vec<Terminal>) -> bool {
        match two(terminals) {
            Some((first, second)) => are_left(&first, &second),
            None => false,
        }
    }
}

/// Whether the session whose turn can't be written ends without a reply, and so does the other, which waits
/// for nothing.
fn are_left(first: &Terminal, second: &Terminal) -> bool {
    first.asks(LOGIN_1, LOGGED_IN)
        && second.asks(LOGIN_2, LOGGED_IN)
        && first.asks(HOLD_1, HELD_1_FIRST)
        && first.says(HOLD_2)
        && first.is_left()
        && second.is_left()
}

/// The session ends without a reply, and so does every other, and the server says that the journal can't be
/// written, and why: where it would serve for ever, and also where it has accepted all connections that it was
/// to, and would end well.
pub(crate) fn goes<R: Threads + Wait + Clock + Sync>(
    rt: &R,
    host: &HostRuntime,
    connections: u32,
) -> Option<bool> {
    let scale = Scale {
        workers: 2,
        connections,
        idle: 0,
    };
    is_unwritten_told(rt, host, 2, scale, &Unwritten)
}
