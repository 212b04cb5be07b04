//! A Unix socket that is listened at.

use crate::fault::DoorFault;
use crate::socket_file::{FileId, bind, remove};
use std::alloc::Global;
use std::fs::Files;
use std::io::{self, ErrorKind, Read};
use std::net::{Net, Shutdown};
use std::os::fd::OwnedFd;
use std::os::unix::net::{UnixListener, UnixStream};
use std::sync::atomic::{AtomicBool, Ordering};
use std::sync::{Mutex, Wait};

/// How many connections are held at most.
const HELD: usize = 16;

/// A Unix socket that is listened at, until it is closed.
#[derive(Drop)]
pub struct Door {
    pub(crate) listener: UnixListener,
    /// A second handle of the listener, by which it is closed.
    handle: UnixStream,
    is_closed: AtomicBool,
    file: FileId,
    /// The connections of those that wait for the server's end.
    held: Mutex<Vec<UnixStream>>,
}

impl Door {
    /// Opens a door at a path: a socket's file that its owner alone may use. The file of a socket at which
    /// nobody listens any more gives way. Beside it a folder is made, and removed again.
    ///
    /// # Errors
    /// `Live` where somebody listens at the path, and `OtherFile` where another file is there, which stays;
    /// `Refused`, with the reason, where the path is too long or the system refuses.
    pub fn open<R: Files + Net>(rt: &R, alloc: Global, path: &str) -> Result<Door, DoorFault> {
        let (listener, file) = bind(rt, alloc, path)?;
        let handle = UnixStream::from(OwnedFd::from(listener.try_clone()?));
        Ok(Door {
            listener,
            handle,
            is_closed: AtomicBool::new(false),
            file,
            held: Mutex::new(Vec::new(alloc)),
        })
    }

    /// Has no more requests answered. Whoever waits for one at the door is woken.
    pub fn close(&self) {
        self.is_closed.store(true, Ordering::SeqCst);
        let _ = self.handle.shutdown(Shutdown::Both);
    }

    /// Whether no more requests are to be answered.
    pub(crate) fn is_closed(&self) -> bool {
        self.is_closed.load(Ordering::SeqCst)
    }

    /// Holds a connection until the door is taken away, so that who waits at its other end knows when that
    /// is. Those at whose other end nobody waits any more give way. Where too many wait, or memory runs out,
    /// it is closed, and who waits is told too early that the server has ended.
    pub(crate) fn hold<R: Wait>(&self, rt: &R, connection: UnixStream) {
        let mut held = self.held.lock(rt);
        held.retain(is_waited_for);
        if held.len() < HELD {
            let _ = held.push(connection);
        }
    }

    /// Takes the door away from its path, where it is still there, and ends the connections that are held.
    ///
    /// # Errors
    /// Where the system refuses. The connections are ended all the same.
    pub fn remove<R: Files>(self, rt: &R, path: &str) -> io::Result<()> {
        remove(rt, path, self.file)
    }
}

/// Whether somebody still waits at the other end of a connection that is held.
fn is_waited_for(mut held: &UnixStream) -> bool {
    if held.set_nonblocking(true).is_err() {
        return false;
    }
    match held.read(&mut [0u8; 1]) {
        Ok(count) => count > 0,
        Err(error) => error.kind() == ErrorKind::WouldBlock,
    }
}
