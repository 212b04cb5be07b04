//! How often a call is tried again.
ghost use Rattle.std.specs.Prelude.{◌↔◌, IsTrue};
ghost use Rattle.hd_connection.specs.Patience.{IsTriedAgain};

use std::io::ErrorKind;

/// How often in a row an interrupted call is tried again, before it is a fault.
pub(crate) const TRIES_AGAIN: usize = 16;

/// Whether a call that failed in this way is tried again, behind so many that were interrupted in a row.
pub(crate) fn is_tried_again(kind: ErrorKind, tries: usize) -> bool
    ensures { IsTrue result ↔ IsTriedAgain kind tries }
{
    kind == ErrorKind::Interrupted && tries < TRIES_AGAIN
}
