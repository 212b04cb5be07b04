//! Accepts that fail: which of them pass.
ghost use Rattle.std.specs.Prelude.{◌≡◌};
ghost use Rattle.std.specs.IoError.{error_kind, raw_os_error};
ghost use Rattle.hd_serve.specs.Failures.{kind_of, of_code};

use std::io::{self, ErrorKind};

/// A firewall forbids the connection.
const EPERM: i32 = 1;
/// No memory is left.
const ENOMEM: i32 = 12;
/// No descriptor is left to the system.
const ENFILE: i32 = 23;
/// No descriptor is left to the process.
const EMFILE: i32 = 24;
/// The connection's machine isn't on the network.
const ENONET: i32 = 64;
/// The connection's protocol has failed.
const EPROTO: i32 = 71;
/// The connection's protocol isn't there.
const ENOPROTOOPT: i32 = 92;
/// The connection's protocol can't do it.
const EOPNOTSUPP: i32 = 95;
/// The connection's network is down.
const ENETDOWN: i32 = 100;
/// The connection's network can't be reached.
const ENETUNREACH: i32 = 101;
/// No room for the network is left.
const ENOBUFS: i32 = 105;
/// The connection's other side is down.
const EHOSTDOWN: i32 = 112;
/// The connection's other side can't be reached.
const EHOSTUNREACH: i32 = 113;

/// Why a connection couldn't be accepted.
#[derive(Clone, Copy)]
pub(crate) enum Failed {
    /// It was lost before, by its other side, its network or a firewall, or the call was interrupted. The
    /// next may be accepted.
    Lost,
    /// No descriptor or no memory is left. When another connection ends there may be.
    ForNow,
    /// For another reason.
    ForGood,
}

/// Why a connection couldn't be accepted, where the system gave this error.
pub(crate) fn kind_of(error: &io::Error) -> Failed
    ensures { result ≡ kind_of (error_kind error.now) (raw_os_error error.now) }
{
    match error.kind() {
        ErrorKind::ConnectionAborted | ErrorKind::ConnectionReset | ErrorKind::Interrupted => {
            Failed::Lost
        }
        _ => match error.raw_os_error() {
            Some(code) => of_code(code),
            None => Failed::ForGood,
        },
    }
}

/// The same by the system's code.
fn of_code(code: i32) -> Failed
    ensures { result ≡ of_code code }
{
    match code {
        EPERM
        | ENONET
        | EPROTO
        | ENOPROTOOPT
        | EOPNOTSUPP
        | ENETDOWN
        | ENETUNREACH
        | EHOSTDOWN
        | EHOSTUNREACH => Failed::Lost,
        ENOMEM | ENFILE | EMFILE | ENOBUFS => Failed::ForNow,
        _ => Failed::ForGood,
    }
}
