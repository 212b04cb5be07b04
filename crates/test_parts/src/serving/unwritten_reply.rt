//! A reply that can't be written, and the line sent again on another connection; and one before a turn that
//! can't be written either.

use crate::serving::lines::{LOGGED_IN, LOGIN_1};
use crate::serving::server::{Row, Scale, is_unwritten_told, is_well, one, open, play, two};
use crate::serving::terminal::Terminal;
use crate::serving::waiting::{TURNS, has_unread_in_time, is_up_within};
use hd_serve::Gate;
use std::sync::Wait;
use std::sync::atomic::{AtomicBool, Ordering};
use std::thread::Threads;
use std::time::Clock;

/// A checkout of `a1` by `p1`, with a digit and a check number.
const CHECKOUT: &[u8] = b"11NN20260301    10000020260301    100000AOlib|AAp1|ABa1|AC|AY3AZF0C9\r";

/// The reply to it, also where it is sent again.
const CHECKED_OUT: &[u8] =
    b"121NNY20260301    100000AOlib|AAp1|ABa1|AJta|AH20260322    235900|AY3AZEE48\r";

/// Holds of any copy of `ta` by `p1` and `p2`, which come as one piece.
const HOLDS: &[u8] = b"15+20260301    100000BSnorth|BY2|AOlib|AAp1|AJta|\r\
    15+20260301    100000BSnorth|BY2|AOlib|AAp2|AJta|\r";

/// A gate that holds the turns of the first session until its terminal has gone.
#[derive(Drop)]
struct Broken<'a> {
    host: &'a HostRuntime,
    is_called: AtomicBool,
    has_gone: AtomicBool,
}

impl<'a> Gate for Broken<'a> {
    fn before(&self, session: usize, _turn: usize) {
        if session == 1 {
            self.is_called.store(true, Ordering::SeqCst);
            let _ = is_up_within(self.host, &self.has_gone, TURNS);
        }
    }
}

impl<'a> Row for Broken<'a> {
    fn play(&self, terminals: Vec<Terminal>) -> bool {
        let Some((first, second)) = two(terminals) else {
            return false;
        };
        self.is_cut(first, CHECKOUT)
            && second.asks(LOGIN_1, LOGGED_IN)
            && second.asks(CHECKOUT, CHECKED_OUT)
    }
}

impl<'a> Broken<'a> {
    /// A gate at which nobody waits.
    fn new(host: &'a HostRuntime) -> Broken<'a> {
        Broken {
            host,
            is_called: AtomicBool::new(false),
            has_gone: AtomicBool::new(false),
        }
    }

    /// Ends the connection while the first of these lines waits at the gate. A reply that isn't read then
    /// resets it.
    fn is_cut(&self, first: Terminal, lines: &[u8]) -> bool {
        let is_cut = self.is_held(first, lines);
        self.has_gone.store(true, Ordering::SeqCst);
        is_cut
    }

    /// The same; the gate still holds what waits there.
    fn is_held(&self, first: Terminal, lines: &[u8]) -> bool {
        first.says(LOGIN_1)
            && has_unread_in_time(self.host, &first, LOGGED_IN.len())
            && first.says(lines)
            && is_up_within(self.host, &self.is_called, TURNS)
    }
}

/// The same gate, where one terminal has said two lines.
#[derive(Drop)]
struct BrokenBetween<'a>(Broken<'a>);

impl<'a> Gate for BrokenBetween<'a> {
    fn before(&self, session: usize, turn: usize) {
        self.0.before(session, turn);
    }
}

impl<'a> Row for BrokenBetween<'a> {
    fn play(&self, terminals: Vec<Terminal>) -> bool {
        match one(terminals) {
            Some(terminal) => self.0.is_cut(terminal, HOLDS),
            None => false,
        }
    }
}

/// The turn stays, and the line that is sent again gets its reply.
pub(crate) fn goes<R: Threads + Wait + Clock + Sync>(rt: &R, host: &HostRuntime) -> Option<bool> {
    let opened = open(host, 2)?;
    let scale = Scale {
        workers: 1,
        connections: 2,
        idle: 0,
    };
    let played = play(rt, host, opened, scale, &Broken::new(host));
    Some(is_well(&played, 2, 1))
}

/// Of two turns of a piece the second can't be written, and the reply of the first neither: the server says
/// that the journal can't be written, and why.
pub(crate) fn goes_at_a_full_disk<R: Threads + Wait + Clock + Sync>(
    rt: &R,
    host: &HostRuntime,
) -> Option<bool> {
    let scale = Scale {
        workers: 1,
        connections: 1,
        idle: 0,
    };
    is_unwritten_told(rt, host, 1, scale, &BrokenBetween(Broken::new(host)))
}
