//! How terminals are to be served.
ghost use Rattle.std.specs.Prelude.{◌≡◌, Some, max, min};
ghost use Rattle.hd_library.specs.Served.{beyond_served};

use hd_command_line::{Beyond, Serve};
use hd_serve::Options;
use hd_session::Extensions;

/// How terminals are to be served, as the words of the command line say, with what extends their messages.
pub fn options_of<'a>(order: &Serve<'_>, extensions: &'a Extensions) -> Options<'a>
    // as many as are asked for, but 1 at least and 9,999 at most
    ensures workers { result.workers ≡ max 1 (min order.now.workers 9999) }
    ensures beyond { result.beyond ≡ beyond_served order.now.beyond }
    ensures connections { result.connections ≡ order.now.connections }
    ensures idle { result.idle ≡ order.now.idle }
    ensures extensions { result.extensions ≡ Some extensions.entry }
    ensures line_feeds { result.has_line_feeds ≡ order.now.has_line_feeds }
    ensures days { result.days_off ≡ order.now.days_off }
{
    Options {
        workers: order.workers.clamp(1, 9_999),
        beyond: beyond_of(order.beyond),
        connections: order.connections,
        idle: order.idle,
        extensions: Some(extensions),
        has_line_feeds: order.has_line_feeds,
        days_off: order.days_off,
    }
}

/// What becomes of a connection beyond those that are served at once, as the words say.
fn beyond_of(beyond: Beyond) -> hd_serve::Beyond
    ensures { result ≡ beyond_served beyond }
{
    match beyond {
        Beyond::Wait => hd_serve::Beyond::Wait,
        Beyond::TurnAway => hd_serve::Beyond::TurnAway,
    }
}
