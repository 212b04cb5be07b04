//! What the mark in a journal's file says.

use crate::crashes::disks::{Disks, database};
use hd_turn_store::{HEADER_LENGTH, is_ended};

/// What the mark in a journal's file says.
#[derive(Clone, Copy)]
pub(crate) enum Mark {
    /// It hasn't been opened for turns.
    None,
    /// It is open for turns, or was when a disk stopped. It isn't opened without its log.
    Open,
    /// It was ended well, and is opened without a log.
    Ended,
}

/// The mark in the database file of these disks.
pub(crate) fn mark_of(disks: &Disks) -> Mark {
    match head_of(database(disks)) {
        Some(head) if is_ended(&head) => Mark::Ended,
        Some(head) if head[60..64] == [0, 0, 0, 1] => Mark::Open,
        _ => Mark::None,
    }
}

/// The header of a database file. None where the file is shorter.
fn head_of(database: &[u8]) -> Option<[u8; HEADER_LENGTH]> {
    let mut head = [0; HEADER_LENGTH];
    head.copy_from_slice(database.get(..HEADER_LENGTH)?);
    Some(head)
}
