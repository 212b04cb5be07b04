//! Connections whose waiting can be limited.

use std::io::{self, Read, Write};
use std::net::Shutdown;
use std::os::unix::net::UnixStream;
use std::time::Duration;

/// A connection by which a request comes and its answer goes.
pub(crate) trait Connection: Read + Write {
    /// Has a read or a write fail that waits longer.
    ///
    /// # Errors
    /// Where the system refuses, as it does for no time at all.
    fn limit(&self, wait: Duration) -> io::Result<()>;

    /// Says that no more is written.
    fn finish(&self);
}

impl Connection for &UnixStream {
    fn limit(&self, wait: Duration) -> io::Result<()> {
        self.set_read_timeout(Some(wait))?;
        self.set_write_timeout(Some(wait))
    }

    fn finish(&self) {
        let _ = self.shutdown(Shutdown::Write);
    }
}
