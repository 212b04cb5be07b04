//! A terminal's end of a connection.

use std::io::{self, ErrorKind, Read, Write};
use std::net::{SocketAddr, TcpStream};
use std::time::Duration;

/// For how many seconds a terminal waits for a byte.
const PATIENCE: u64 = 20;

/// How many bytes are looked at, at most, without being read.
const GLANCE: usize = 512;

/// A terminal's end of a connection.
#[derive(Drop)]
pub(crate) struct Terminal {
    stream: TcpStream,
}

impl Terminal {
    /// Connects. What it sends goes out at once.
    pub(crate) fn connect(rt: &HostRuntime, address: SocketAddr) -> io::Result<Terminal> {
        let stream = TcpStream::connect(rt, address)?;
        stream.set_nodelay(true)?;
        stream.set_read_timeout(Some(Duration::from_secs(PATIENCE)))?;
        Ok(Terminal { stream })
    }

    /// Sends bytes. Whether they went out.
    pub(crate) fn says(&self, bytes: &[u8]) -> bool {
        let mut writer = &self.stream;
        writer.write_all(bytes).is_ok()
    }

    /// Whether just these bytes come next.
    pub(crate) fn hears(&self, bytes: &[u8]) -> bool {
        for byte in bytes {
            if self.next() != Some(*byte) {
                return false;
            }
        }
        true
    }

    /// Sends a line, and whether it gets this reply.
    pub(crate) fn asks(&self, line: &[u8], reply: &[u8]) -> bool {
        self.says(line) && self.hears(reply)
    }

    /// The next byte. None where the connection ends or nothing comes in time.
    fn next(&self) -> Option<u8> {
        let mut one = [0u8];
        let mut reader = &self.stream;
        match reader.read(&mut one) {
            Ok(1) => Some(one[0]),
            _ => None,
        }
    }

    /// Whether the server ends the connection, and nothing comes before.
    pub(crate) fn is_left(&self) -> bool {
        let mut one = [0u8];
        let mut reader = &self.stream;
        matches!(reader.read(&mut one), Ok(0))
    }

    /// How many bytes lie there to be read, up to 512. None where nothing comes in time.
    pub(crate) fn unread(&self) -> Option<usize> {
        let mut glance = [0u8; GLANCE];
        self.stream.peek(&mut glance).ok()
    }

    /// Has reading return at once from now on, also where there is nothing. Whether it could.
    pub(crate) fn is_hasty(&self) -> bool {
        self.stream.set_nonblocking(true).is_ok()
    }

    /// Adds the bytes that have come to some. Whether the connection goes on, and there is memory.
    pub(crate) fn overhears(&self, heard: &mut Vec<u8>) -> bool {
        let mut piece = [0u8; GLANCE];
        let mut reader = &self.stream;
        match reader.read(&mut piece) {
            Ok(count) => count > 0 && heard.extend_from_slice(&piece[..count]).is_ok(),
            Err(error) => error.kind() == ErrorKind::WouldBlock,
        }
    }
}
