//! The state of a server while it runs: whether it is to end, which connections are open, and whether seats
//! are left.
ghost use Rattle.std.specs.Prelude.{◌≡◌, ◌+◌, ◌<◌, ◌≤◌, None, Some, IfNone, IfSome, IsTrue, OnSome, not};
ghost use Rattle.std.specs.Prelude.{length, slice_get, slice_set, true};
ghost use Rattle.hd_serve.specs.Ends.{begun, end_on, end_without_place, first_reason, is_to_end};
ghost use Rattle.hd_serve.specs.Places.{taken};

use hd_journal::WriteFault;
use hd_log::End;
use std::alloc::Global;
use std::io;
use std::net::{Shutdown, TcpListener, TcpStream};
use std::os::fd::OwnedFd;
use std::sync::{Mutex, Wait};

/// Whether a server is to go on.
#[derive(Clone, Copy)]
pub(crate) struct Course {
    /// Why its journal can't be written, if so.
    pub(crate) unwritten: Option<WriteFault>,
    /// Whether it was asked to end.
    pub(crate) is_asked: bool,
}

/// The state, which a lock keeps.
#[derive(Drop)]
struct Now {
    course: Course,
    /// A second handle of each connection that is open, at the place that it has.
    open: Vec<Option<TcpStream>>,
    /// Whether it was reported that few numbers are left.
    is_told: bool,
    /// Whether a connection has found no seat.
    is_full: bool,
}

/// The state of a server while it runs, and a second handle of its port.
#[derive(Drop)]
pub struct Standing {
    now: Mutex<Now>,
    port: TcpStream,
}

/// A turn couldn't be written, for this reason. The value can't be dropped, so that it ends its server
/// (`Standing::end_unwritten`).
pub(crate) struct UnwrittenTurn {
    pub(crate) why: WriteFault,
}

/// A server was asked to end. Only `Standing::ask_to_end` returns this value.
#[derive(Clone, Copy)]
pub struct AskedToEnd {
    _of: (),
}

impl Standing {
    /// The state of a server that begins to listen at a port.
    ///
    /// # Errors
    /// Where the system gives no second handle.
    pub fn of(alloc: Global, listener: &TcpListener) -> io::Result<Standing> {
        let port = TcpStream::from(OwnedFd::from(listener.try_clone()?));
        let course = Course {
            unwritten: None,
            is_asked: false,
        };
        let open = Vec::new(alloc);
        Ok(Standing {
            now: Mutex::new(Now {
                course,
                open,
                is_told: false,
                is_full: false,
            }),
            port,
        })
    }

    /// Has the server end. No more connections are accepted, and none that waits is begun. Lines that were read
    /// are answered, and each session ends at its next read, whatever has come by then. A reply of which
    /// nothing is taken for a second isn't written.
    pub fn ask_to_end<R: Wait>(&self, rt: &R) -> AskedToEnd {
        let mut now = self.now.lock(rt);
        now.course.ask();
        self.hang_up(&now);
        AskedToEnd { _of: () }
    }

    /// How many connections are open: those that are served, and those that wait for a worker.
    pub fn connections<R: Wait>(&self, rt: &R) -> usize {
        self.now.lock(rt).connections()
    }

    /// Whether a connection has found no seat: as many were opened as may be, so no other can be had.
    pub fn is_full<R: Wait>(&self, rt: &R) -> bool {
        self.now.lock(rt).is_full
    }

    /// Notes that a connection has found no seat.
    pub(crate) fn note_full<R: Wait>(&self, rt: &R) {
        self.now.lock(rt).is_full = true;
    }

    /// Has the server end as `ask_to_end` does, since a turn couldn't be written. Its reason is the server's,
    /// unless there was one before.
    pub(crate) fn end_unwritten<R: Wait>(&self, rt: &R, unwritten: UnwrittenTurn) {
        let UnwrittenTurn { why } = unwritten;
        let mut now = self.now.lock(rt);
        now.course.note(why);
        self.hang_up(&now);
    }

    /// Whether the server is to go on.
    pub(crate) fn course<R: Wait>(&self, rt: &R) -> Course {
        self.now.lock(rt).course
    }

    /// Notes that a connection is open: the place that it has.
    ///
    /// # Errors
    /// Why it is closed at once: no descriptor is left for a second handle of it, the server is to end, or
    /// memory runs out.
    pub(crate) fn enter<R: Wait>(&self, rt: &R, connection: &TcpStream) -> Result<usize, End> {
        let Ok(handle) = connection.try_clone() else {
            return Err(End::Descriptor);
        };
        let mut now = self.now.lock(rt);
        match now.enter(handle) {
            Some(place) => Ok(place),
            None => Err(now.course.end_without_place()),
        }
    }

    /// Notes that the connection at this place has ended.
    pub(crate) fn leave<R: Wait>(&self, rt: &R, place: usize) {
        self.now.lock(rt).leave(place);
    }

    /// Whether it hasn't been reported before that few numbers are left. It counts as reported from then on.
    pub(crate) fn is_news<R: Wait>(&self, rt: &R) -> bool {
        self.now.lock(rt).is_news()
    }

    /// Wakes each thread that waits to read from a connection, or for one at the port. No more is read from a
    /// connection then, since each reader looks at the course first (`Reading`).
    fn hang_up(&self, now: &Now) {
        for handle in now.open.iter().flatten() {
            let _ = handle.shutdown(Shutdown::Read);
        }
        let _ = self.port.shutdown(Shutdown::Both);
    }
}

impl Course {
    /// The server is asked to end. Whether its journal can be written stays.
    fn ask(&mut self)
        ensures { self.new ≡ record self.old { is_asked = true } }
    {
        self.is_asked = true;
    }

    /// The journal can't be written for this reason. An earlier reason stays, and whether it was asked to
    /// end.
    fn note(&mut self, why: WriteFault)
        ensures { self.new ≡ record self.old {
          unwritten = Some (first_reason self.old.unwritten why);
        } }
    {
        self.unwritten = Some(first_reason(self.unwritten, why));
    }

    /// Whether the server is to end: it was asked to, or its journal can't be written.
    pub(crate) fn is_to_end(self) -> bool
        ensures { result ≡ is_to_end self }
    {
        self.is_asked || self.unwritten.is_some()
    }

    /// Begins a connection that has waited for a worker, unless the server is to end.
    ///
    /// # Errors
    /// The reason that is reported: the server is to end.
    pub(crate) fn begin(self) -> Result<(), End>
        ensures { result ≡ begun self }
    {
        if self.is_to_end() {
            return Err(self.end());
        }
        Ok(())
    }

    /// The reason that is reported where no more came of a connection.
    pub(crate) fn end(self) -> End
        ensures { result ≡ end_on self.unwritten self.is_asked }
    {
        if self.unwritten.is_some() {
            End::Unwritten
        } else if self.is_asked {
            End::Stop
        } else {
            End::Peer
        }
    }

    /// The reason that is reported where a connection got no place and was closed: the server is to end, or
    /// else memory ran out.
    fn end_without_place(self) -> End
        ensures { result ≡ end_without_place self }
    {
        if self.is_to_end() {
            self.end()
        } else {
            End::Memory
        }
    }
}

impl Now {
    /// How many connections are open.
    fn connections(&self) -> usize
        ensures { result ≡ taken self.now.open.items }
    {
        self.open.iter().filter(|handle| handle.is_some()).count()
    }

    /// Puts a handle at the first free place, unless the server is to end: the place. There is one connection
    /// more then; else they are as they were.
    fn enter(&mut self, handle: TcpStream) -> Option<usize>
        ensures place { IfSome result (λ place. slice_get self.new.open.items place ≡ Some (Some handle)) }
        ensures one_more { OnSome result (taken self.new.open.items ≡ taken self.old.open.items + 1) }
        ensures none { IfNone result (self.new.open.items ≡ self.old.open.items) }
        ensures ending { IsTrue (is_to_end self.old.course) → result ≡ None }
        ensures course { self.new.course ≡ self.old.course }
    {
        if self.course.is_to_end() {
            return None;
        }
        match self.open.iter().position(Option::is_none) {
            Some(place) => {
                self.open[place] = Some(handle);
                Some(place)
            }
            None => {
                self.open.push(Some(handle)).ok()?;
                Some(self.open.len() - 1)
            }
        }
    }

    /// The connection at a place has ended. The others stay where they are.
    fn leave(&mut self, place: usize)
        ensures ended { place < length self.old.open.items
            → self.new.open.items ≡ slice_set self.old.open.items place None }
        ensures none { length self.old.open.items ≤ place → self.new.open.items ≡ self.old.open.items }
        ensures course { self.new.course ≡ self.old.course }
    {
        if let Some(handle) = self.open.get_mut(place) {
            *handle = None;
        }
    }

    /// Whether it hasn't been reported before that few numbers are left. It counts as reported from then on.
    fn is_news(&mut self) -> bool
        ensures news { result ≡ not self.old.is_told }
        ensures told { self.new.is_told ≡ true }
    {
        let is_news = !self.is_told;
        self.is_told = true;
        is_news
    }
}

/// Of a reason that was noted before, if one was, and another the one that is reported.
fn first_reason(before: Option<WriteFault>, why: WriteFault) -> WriteFault
    ensures { result ≡ first_reason before why }
{
    match before {
        Some(before) => before,
        None => why,
    }
}
