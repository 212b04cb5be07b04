//! Lines that are fed to sessions at an office that is estranged at its second turn.
//!
//! The line of that turn ends its session: no reply to it is written, the replies before it are, and the
//! session hears nothing more. A message that asks nothing of the office is answered even then.
//!
//! Besides, sessions at a journal alone: how many gaps one has counted, and one that has extensions.

mod moved;
mod row;

use crate::alone::Alone;
use crate::library::{extensions, present};
use crate::sessions::moved::Moved;
use crate::sessions::row::{Row, lines, rows};
use crate::verdict::tell;
use hd_session::Session;
use std::io;

/// How many of the lines of the row *repeats and gaps* carry another digit than the one after the last.
const GAPS: u64 = 2;

/// A login, and a message that asks for a patron, with their password.
const LOGIN_AND_PATRON: &[u8] = b"9300CNt1|COpw|\r2300120260301    100000AOlib|AAp1|AC|AD1234|\r";

/// The replies: the password is theirs.
const LOGGED_IN_AND_NAMED: &[u8] =
    b"941\r24              00120260301    100000AOlib|AAp1|AEAda|BLY|CQY|\r";

/// Feeds the lines of each row, and says whether it ended as it is to, and so of the sessions at a journal
/// alone.
pub(crate) fn play(rt: &HostRuntime) -> io::Result<()> {
    for row in rows() {
        tell(rt, row.name, is_ended(rt, row) == Some(true))?;
    }
    tell(rt, "gaps counted", are_gaps_counted(rt))?;
    tell(rt, "extensions", is_extended(rt))
}

/// Whether a new session that is fed a row's two pieces ends as it is to, with one turn. None where there is
/// no memory.
fn is_ended(rt: &HostRuntime, row: &Row) -> Option<bool> {
    let now = present()?;
    let mut session = Session::new(rt.alloc()).ok()?;
    let mut office = Moved::new(rt)?;
    let mut text = Vec::new(rt.alloc());
    let _ = session.feed(row.first, &now, &mut office, &mut text);
    let end = session.feed(row.then, &now, &mut office, &mut text).err();
    Some(text.as_slice() == row.replies && office.turns() == 1 && end == row.end)
}

/// Whether a session that hears the lines of the row *repeats and gaps* has counted the gaps.
fn are_gaps_counted(rt: &HostRuntime) -> bool {
    match Alone::open(rt, None) {
        Some(mut alone) => {
            alone.send(lines());
            alone.session.end().is_none() && alone.session.gaps() == GAPS
        }
        None => false,
    }
}

/// Whether a session with extensions answers a patron message.
fn is_extended(rt: &HostRuntime) -> bool {
    let Some(extensions) = extensions(rt.alloc()) else {
        return false;
    };
    match Alone::open(rt, Some(&extensions)) {
        Some(mut alone) => {
            alone.send(LOGIN_AND_PATRON);
            alone.session.end().is_none() && alone.text.as_slice() == LOGGED_IN_AND_NAMED
        }
        None => false,
    }
}
