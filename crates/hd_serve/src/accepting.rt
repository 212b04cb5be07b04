//! Accepting connections.
ghost use Rattle.std.specs.Prelude.{◌≡◌, ◌↔◌, IfErr, IsTrue};
ghost use Rattle.hd_serve.specs.Accepting.{IsLast, IsOfAccepting, IsToldFailed, received, served};

use crate::failed::{Failed, kind_of};
use crate::fault::ServeFault;
use crate::gate::Observer;
use crate::options::{Beyond, Options};
use crate::speaking::Speaker;
use crate::standing::{Course, Standing};
use crossbeam_channel::Sender;
use hd_log::{ConnectionEvent, End, Event};
use std::alloc::Global;
use std::net::{TcpListener, TcpStream};
use std::sync::Wait;
use std::time::{Clock, Duration};
use std::{io, thread};

/// How often in a row an accept that failed for lack of something is tried again where no connection is open.
const TRIES_AGAIN: u32 = 16;

/// How many milliseconds are waited before a failed accept is tried again.
const PAUSE_MILLISECONDS: u64 = 100;

/// A connection that was accepted.
#[derive(Drop)]
pub(crate) struct Connection {
    pub(crate) stream: TcpStream,
    /// Its session's number, from 1.
    pub(crate) session: usize,
    /// Its place among those that are open.
    pub(crate) place: usize,
    /// Where it comes from. Empty where nothing is logged.
    pub(crate) address: String,
}

/// What the server does after an accept.
#[derive(Drop)]
pub(crate) enum Arrival<T> {
    /// It serves this connection.
    Connection(T),
    /// It tries again.
    Again,
    /// It accepts no more connections.
    End,
}

/// Accepts connections and passes them to the workers. Dropping it ends the workers.
#[derive(Drop)]
pub(crate) struct Reception<'a, R, O: Observer> {
    pub(crate) rt: &'a R,
    pub(crate) alloc: Global,
    pub(crate) standing: &'a Standing,
    pub(crate) options: Options<'a>,
    pub(crate) observer: &'a O,
    pub(crate) to: Sender<Connection>,
    /// How many were accepted. Those that were turned away or closed at once count too.
    pub(crate) session: usize,
}

impl<'a, R: Wait + Clock, O: Observer> Reception<'a, R, O> {
    /// Accepts as many connections as the options say, or with 0 all that come, until the server is to end.
    /// Passes on those for which there is room.
    ///
    /// # Errors
    /// `Unwritten` where the journal can't be written. `CannotListen` where a connection can't be accepted for
    /// good, or 17 times in a row while none is open (`received`). Otherwise the server was asked to end, or
    /// the last connection was accepted.
    pub(crate) fn accept(mut self, listener: &TcpListener) -> Result<(), ServeFault>
        ensures why { IfErr result IsOfAccepting }
    {
        let mut failed = 0u32;
        for came in listener.incoming() {
            match self.arrival(came, failed)? {
                Arrival::Connection(stream) => {
                    failed = 0;
                    self.welcome(stream);
                }
                Arrival::Again => {
                    failed = failed.saturating_add(1);
                    let _ = thread::sleep(self.rt, Duration::from_millis(PAUSE_MILLISECONDS));
                }
                Arrival::End => break,
            }
            if is_last(self.session, self.options.connections) {
                break;
            }
        }
        Ok(())
    }

    /// What the server does after an accept, where `failed` accepts in a row failed before. Reports the first
    /// failed accept in a row, and the one that ends the accepting.
    fn arrival(
        &self,
        came: io::Result<TcpStream>,
        failed: u32,
    ) -> Result<Arrival<TcpStream>, ServeFault>
        ensures why { IfErr result IsOfAccepting }
    {
        let course = self.standing.course(self.rt);
        let others = self.standing.connections(self.rt);
        match came {
            Ok(stream) => received(course, Ok(stream), failed, others),
            Err(error) => {
                let arrival = received(course, Err(kind_of(&error)), failed, others);
                if is_told_failed(course, failed, &arrival) {
                    self.tell_failed(&error, failed);
                }
                arrival
            }
        }
    }

    /// Reports why no connection could be accepted, after `failed` accepts in a row that failed too.
    fn tell_failed(&self, error: &io::Error, failed: u32) {
        if let Ok(why) = format!(in self.alloc; "{error}") {
            self.observer.tell(&Event::CannotAccept {
                times: u64::from(failed).saturating_add(1),
                why: why.as_bytes(),
            });
        }
    }

    /// Passes a connection on, or closes it where as many are open as there are workers.
    fn welcome(&mut self, stream: TcpStream) {
        let is_beyond = self.standing.connections(self.rt) >= self.options.workers as usize;
        self.session = self.session.saturating_add(1);
        let speaker = Speaker::new(self.alloc, self.observer, self.session);
        let address = speaker.address(&stream);
        if is_beyond && self.options.beyond == Beyond::TurnAway {
            let address = address.as_bytes();
            speaker.tell(ConnectionEvent::TurnedAway { address });
            return;
        }
        tell_opened(&speaker, address.as_bytes(), is_beyond);
        match self.standing.enter(self.rt, &stream) {
            Ok(place) => self.hand_on(stream, place, address),
            Err(why) => tell_closed(&speaker, address.as_bytes(), why),
        }
    }

    /// Passes a connection on under the last number. A worker ends only when this reception is dropped, so one
    /// takes it. If none does, the connection is closed.
    fn hand_on(&self, stream: TcpStream, place: usize, address: String) {
        let connection = Connection {
            stream,
            session: self.session,
            place,
            address,
        };
        if self.to.send(self.rt, connection).is_err() {
            self.standing.leave(self.rt, place);
        }
    }
}

/// Reports that a connection was accepted, and whether it waits.
fn tell_opened<O: Observer>(speaker: &Speaker<'_, O>, address: &[u8], is_waiting: bool) {
    speaker.tell(ConnectionEvent::Opened { address });
    if is_waiting {
        speaker.tell(ConnectionEvent::Waiting { address });
    }
}

/// Reports that a connection was closed at once, for this reason.
fn tell_closed<O: Observer>(speaker: &Speaker<'_, O>, address: &[u8], why: End) {
    speaker.tell(ConnectionEvent::Closed {
        address,
        why,
        messages: 0,
        seconds: 0,
    });
}

/// What a server on this course does after an accept, where `failed` accepts in a row failed before, and
/// `others` connections are open.
///
/// # Errors
/// `Unwritten` with the reason, where the journal can't be written. `CannotListen` where the port failed for
/// good, or more often in a row than is tried again.
fn received<T: Drop>(
    course: Course,
    came: Result<T, Failed>,
    failed: u32,
    others: usize,
) -> Result<Arrival<T>, ServeFault>
    ensures arrival { result ≡ received course came failed others }
    ensures why { IfErr result IsOfAccepting }
{
    if let Some(why) = course.unwritten {
        return Err(ServeFault::Unwritten(why));
    }
    if course.is_asked {
        return Ok(Arrival::End);
    }
    served(came, failed, others)
}

/// The same where the server is to go on.
///
/// # Errors
/// `CannotListen` where the port failed for good, or more often in a row than is tried again.
fn served<T: Drop>(
    came: Result<T, Failed>,
    failed: u32,
    others: usize,
) -> Result<Arrival<T>, ServeFault>
    ensures arrival { result ≡ served came failed others }
    ensures why { IfErr result IsOfAccepting }
{
    match came {
        Ok(connection) => Ok(Arrival::Connection(connection)),
        Err(Failed::Lost) => Ok(Arrival::Again),
        Err(Failed::ForNow) if others > 0 || failed < TRIES_AGAIN => Ok(Arrival::Again),
        Err(_) => Err(ServeFault::CannotListen),
    }
}

/// Whether a failed accept with this outcome is reported, on this course, after `failed` accepts in a row
/// that failed too. The first is, and the one that ends the accepting. Where the server is to end, none is.
fn is_told_failed<T>(course: Course, failed: u32, arrival: &Result<Arrival<T>, ServeFault>) -> bool
    ensures { IsTrue result ↔ IsToldFailed course failed arrival.now }
{
    !course.is_to_end() && (failed == 0 || arrival.is_err())
}

/// Whether the connection of this number is the last, of as many as are to be accepted. With 0 none is.
fn is_last(number: usize, connections: u32) -> bool
    ensures { IsTrue result ↔ IsLast number connections }
{
    connections > 0 && number >= connections as usize
}
