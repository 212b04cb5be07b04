//! Two connections, of which one has to be answered while the other's first turn waits at the gate.

use crate::serving::lines::{
    HELD_1_FIRST, HELD_1_SECOND, HELD_2_FIRST, HELD_2_SECOND, HOLD_1, HOLD_2, LOGGED_IN, LOGIN_1,
    LOGIN_2,
};
use crate::serving::server::{Row, Scale, is_well, open, play, two};
use crate::serving::terminal::Terminal;
use crate::serving::waiting::{TURNS, is_up_within, nap};
use hd_serve::Gate;
use std::alloc::Global;
use std::sync::Wait;
use std::sync::atomic::{AtomicBool, AtomicUsize, Ordering};
use std::thread::Threads;
use std::time::Clock;

/// How many turns are waited where it has to be in vain.
const TURNS_IN_VAIN: u32 = 100;

/// A gate that holds the first call that it gets until the hold of the other session has been answered, for
/// so many turns at most.
#[derive(Drop)]
struct Meeting<'a> {
    host: &'a HostRuntime,
    turns: u32,
    /// The session whose call is held, or 0.
    held: AtomicUsize,
    /// Whether it was called for turn 1 of the other session.
    is_other_called: AtomicBool,
    /// Whether the other session's hold has been answered.
    is_other_answered: AtomicBool,
    /// Whether both was so before the held call returned.
    has_met: AtomicBool,
}

/// A terminal, and what it has heard.
struct Listening {
    terminal: Terminal,
    heard: Vec<u8>,
}

// Written out, so that a caller's proof sees one call and not the drop of each field.
impl Drop for Listening {
    fn drop(self) {
        let Listening {
            terminal: _terminal,
            heard: _heard,
        } = self;
    }
}

impl<'a> Meeting<'a> {
    /// Nothing has happened.
    fn new(host: &'a HostRuntime, turns: u32) -> Meeting<'a> {
        Meeting {
            host,
            turns,
            held: AtomicUsize::new(0),
            is_other_called: AtomicBool::new(false),
            is_other_answered: AtomicBool::new(false),
            has_met: AtomicBool::new(false),
        }
    }

    /// Listens to both until their holds are answered, in turns that sleep. Whether they are in time.
    fn listen(&self, first: &mut Listening, second: &mut Listening) -> bool {
        for _ in 0..self.turns {
            if !(first.listen() && second.listen()) {
                return false;
            }
            self.note(1, first);
            self.note(2, second);
            if first.is_whole() && second.is_whole() {
                return true;
            }
            nap(self.host);
        }
        false
    }

    /// Tells the gate where this session is the other one, and its hold has been answered.
    fn note(&self, session: usize, listening: &Listening) {
        if listening.is_whole() && self.held.load(Ordering::SeqCst) != session {
            self.is_other_answered.store(true, Ordering::SeqCst);
        }
    }

    /// Whether both replies are those of two holds, of which the held one comes second.
    fn are_told(&self, first: &Listening, second: &Listening) -> bool {
        if self.held.load(Ordering::SeqCst) == 1 {
            first.has(HELD_1_SECOND) && second.has(HELD_2_FIRST)
        } else {
            first.has(HELD_1_FIRST) && second.has(HELD_2_SECOND)
        }
    }
}

impl Listening {
    /// A terminal that has heard nothing.
    fn new(alloc: Global, terminal: Terminal) -> Listening {
        Listening {
            terminal,
            heard: Vec::new(alloc),
        }
    }

    /// Logs in and holds. Whether it could.
    fn says(&self, login: &[u8], hold: &[u8]) -> bool {
        self.terminal.says(login) && self.terminal.says(hold) && self.terminal.is_hasty()
    }

    /// Hears what has come. Whether the connection goes on.
    fn listen(&mut self) -> bool {
        self.is_whole() || self.terminal.overhears(&mut self.heard)
    }

    /// Whether its login and its hold are answered. All replies to holds are equally long here.
    fn is_whole(&self) -> bool {
        self.heard.len() >= LOGGED_IN.len() + HELD_1_FIRST.len()
    }

    /// Whether its login is answered, then its hold by this reply, and nothing comes after.
    fn has(&self, reply: &[u8]) -> bool {
        self.heard.as_slice().strip_prefix(LOGGED_IN) == Some(reply)
    }
}

impl<'a> Gate for Meeting<'a> {
    fn before(&self, session: usize, turn: usize) {
        let first = self
            .held
            .compare_exchange(0, session, Ordering::SeqCst, Ordering::SeqCst);
        if first.is_ok() {
            let is_answered = is_up_within(self.host, &self.is_other_answered, self.turns);
            let is_called = self.is_other_called.load(Ordering::SeqCst);
            self.has_met
                .store(is_answered && is_called, Ordering::SeqCst);
        } else if turn == 1 && self.held.load(Ordering::SeqCst) != session {
            self.is_other_called.store(true, Ordering::SeqCst);
        }
    }
}

impl<'a> Row for Meeting<'a> {
    /// Both hold, and stay until both are answered.
    fn play(&self, terminals: Vec<Terminal>) -> bool {
        let Some((first, second)) = two(terminals) else {
            return false;
        };
        let mut first = Listening::new(self.host.alloc(), first);
        let mut second = Listening::new(self.host.alloc(), second);
        first.says(LOGIN_1, HOLD_1)
            && second.says(LOGIN_2, HOLD_2)
            && self.listen(&mut first, &mut second)
            && self.are_told(&first, &second)
    }
}

/// With two workers the one is answered while the other waits, and both are counted.
pub(crate) fn goes<R: Threads + Wait + Clock + Sync>(rt: &R, host: &HostRuntime) -> Option<bool> {
    let opened = open(host, 2)?;
    let scale = Scale {
        workers: 2,
        connections: 2,
        idle: 0,
    };
    let meeting = Meeting::new(host, TURNS);
    let played = play(rt, host, opened, scale, &meeting);
    Some(is_well(&played, 2, 2) && meeting.has_met.load(Ordering::SeqCst))
}

/// With one worker the second connection isn't served while the first one waits.
pub(crate) fn waits<R: Threads + Wait + Clock + Sync>(rt: &R, host: &HostRuntime) -> Option<bool> {
    let opened = open(host, 2)?;
    let scale = Scale {
        workers: 1,
        connections: 2,
        idle: 0,
    };
    let meeting = Meeting::new(host, TURNS_IN_VAIN);
    let (ended, is_met) = play(rt, host, opened, scale, &meeting);
    let is_held = meeting.held.load(Ordering::SeqCst) == 1;
    let has_met = meeting.has_met.load(Ordering::SeqCst);
    Some(ended.is_ok() && is_held && !is_met && !has_met)
}
