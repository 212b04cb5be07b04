//! A port that is taken from the server while a connection is served.

use crate::serving::lines::{HELD_1_FIRST, HOLD_1, LOGGED_IN, LOGIN_1};
use crate::serving::server::{Row, Scale, one, open, play};
use crate::serving::terminal::Terminal;
use crate::serving::waiting::{TURNS, nap};
use hd_serve::Gate;
use hd_server::{ServeFault, ServerFault};
use std::net::{Shutdown, SocketAddr, TcpStream};
use std::os::fd::OwnedFd;
use std::sync::Wait;
use std::thread::Threads;
use std::time::Clock;

/// A second handle of the port at which the server listens.
#[derive(Drop)]
struct FailedAccept<'a> {
    host: &'a HostRuntime,
    port: TcpStream,
    address: SocketAddr,
}

impl<'a> Gate for FailedAccept<'a> {
    fn before(&self, _session: usize, _turn: usize) {}
}

impl<'a> Row for FailedAccept<'a> {
    fn play(&self, terminals: Vec<Terminal>) -> bool {
        let Some(terminal) = one(terminals) else {
            return false;
        };
        let is_welcome = terminal.asks(LOGIN_1, LOGGED_IN);
        let is_shut = self.port.shutdown(Shutdown::Both).is_ok();
        is_welcome && is_shut && self.is_refused() && terminal.asks(HOLD_1, HELD_1_FIRST)
    }
}

impl<'a> FailedAccept<'a> {
    /// Waits until nobody can connect any more. Whether it is so.
    fn is_refused(&self) -> bool {
        for _ in 0..TURNS {
            if Terminal::connect(self.host, self.address).is_err() {
                return true;
            }
            nap(self.host);
        }
        false
    }
}

/// The connection is served to its end, and the server then says that it can't listen.
pub(crate) fn goes<R: Threads + Wait + Clock + Sync>(rt: &R, host: &HostRuntime) -> Option<bool> {
    let opened = open(host, 1)?;
    let address = opened.listener.local_addr().ok()?;
    let listener = opened.listener.try_clone().ok()?;
    let row = FailedAccept {
        host,
        port: TcpStream::from(OwnedFd::from(listener)),
        address,
    };
    let scale = Scale {
        workers: 2,
        connections: 2,
        idle: 0,
    };
    let (ended, is_played) = play(rt, host, opened, scale, &row);
    Some(is_played && ended == Err(ServerFault::Serve(ServeFault::CannotListen)))
}
