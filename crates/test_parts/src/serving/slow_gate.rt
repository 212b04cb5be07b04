//! A gate that is called before each turn, and holds one for longer than a connection may be idle.

use crate::serving::lines::{HELD_1_FIRST, HOLD_1, ITEM, LOGGED_IN, LOGIN_1, ON_SHELF_HELD};
use crate::serving::server::{Row, Scale, is_well, one, open, play};
use crate::serving::terminal::Terminal;
use hd_serve::Gate;
use std::sync::Wait;
use std::sync::atomic::{AtomicBool, AtomicUsize, Ordering};
use std::thread;
use std::thread::Threads;
use std::time::{Clock, Duration};

/// After how many idle seconds a connection is dropped.
const IDLE: u32 = 1;

/// For how many milliseconds the first turn is held.
const HELD: u64 = 1_500;

/// How many turns the lines make: all but the login.
const TURNS_MADE: usize = 2;

/// A gate that counts, and sees whether it is called for each turn of the one session, in order.
#[derive(Drop)]
struct Slow<'a> {
    host: &'a HostRuntime,
    turns: AtomicUsize,
    is_in_order: AtomicBool,
}

impl<'a> Gate for Slow<'a> {
    fn before(&self, session: usize, turn: usize) {
        let before = self.turns.fetch_add(1, Ordering::SeqCst);
        if session != 1 || turn != before.saturating_add(1) {
            self.is_in_order.store(false, Ordering::SeqCst);
        }
        if before == 0 {
            thread::sleep(self.host, Duration::from_millis(HELD));
        }
    }
}

impl<'a> Row for Slow<'a> {
    fn play(&self, terminals: Vec<Terminal>) -> bool {
        match one(terminals) {
            Some(terminal) => is_served(&terminal),
            None => false,
        }
    }
}

/// Says all at once. Whether all is answered.
fn is_served(terminal: &Terminal) -> bool {
    terminal.says(LOGIN_1)
        && terminal.says(HOLD_1)
        && terminal.says(ITEM)
        && terminal.hears(LOGGED_IN)
        && terminal.hears(HELD_1_FIRST)
        && terminal.hears(ON_SHELF_HELD)
}

/// The held turn and the one behind it are answered, and the gate is called before each.
pub(crate) fn goes<R: Threads + Wait + Clock + Sync>(rt: &R, host: &HostRuntime) -> Option<bool> {
    let opened = open(host, 1)?;
    let scale = Scale {
        workers: 1,
        connections: 1,
        idle: IDLE,
    };
    let slow = Slow {
        host,
        turns: AtomicUsize::new(0),
        is_in_order: AtomicBool::new(true),
    };
    let played = play(rt, host, opened, scale, &slow);
    let is_counted = slow.turns.load(Ordering::SeqCst) == TURNS_MADE;
    let is_in_order = slow.is_in_order.load(Ordering::SeqCst);
    Some(is_well(&played, TURNS_MADE, 1) && is_counted && is_in_order)
}
