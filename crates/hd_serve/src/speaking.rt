//! The events of a connection.
ghost use Rattle.hd_serve.specs.Reports.{IsReported};

use crate::gate::Observer;
use hd_journal::WriteFault;
use hd_log::{ConnectionEvent, Event, Level};
use std::alloc::Global;
use std::net::TcpStream;

/// Reports the events of one connection to an observer.
#[derive(Drop)]
pub(crate) struct Speaker<'a, O: Observer> {
    alloc: Global,
    observer: &'a O,
    connection: u64,
}

impl<'a, O: Observer> Speaker<'a, O> {
    /// For the connection of this number.
    pub(crate) fn new(alloc: Global, observer: &'a O, connection: usize) -> Speaker<'a, O> {
        Speaker {
            alloc,
            observer,
            connection: connection as u64,
        }
    }

    /// Whether no event is to be reported.
    pub(crate) fn is_quiet(&self) -> bool {
        self.observer.level() == Level::Quiet
    }

    /// An event has happened at the connection.
    pub(crate) fn tell(&self, what: ConnectionEvent<'_>)
        ensures { IsReported (O.was_told self.now.observer.now) self.now.connection what.entry }
    {
        let connection = self.connection;
        self.observer.tell(&Event::At { connection, what });
    }

    /// Reports that the journal couldn't be written at a turn of the connection, for this reason.
    pub(crate) fn tell_unwritten(&self, why: WriteFault) {
        if let Ok(why) = format!(in self.alloc; "{why}") {
            self.observer.tell(&Event::Unwritten {
                why: why.as_bytes(),
            });
        }
    }

    /// The address from which a connection comes, as text. Empty where it isn't known, or isn't reported.
    pub(crate) fn address(&self, stream: &TcpStream) -> String {
        match self.peer(stream) {
            Some(text) => text,
            None => String::new(self.alloc),
        }
    }

    /// The address from which a connection comes, as text, where it is known and is to be reported.
    fn peer(&self, stream: &TcpStream) -> Option<String> {
        if self.is_quiet() {
            return None;
        }
        let address = stream.peer_addr().ok()?;
        format!(in self.alloc; "{address}").ok()
    }
}
