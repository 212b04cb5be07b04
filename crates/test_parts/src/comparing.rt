//! Journals and desks beside one another: what their public calls tell.
use crate::library::{COPIES, PATRONS, TITLES};
use hd_desk::Desk;
use hd_journal::{Journal, TurnRef};
use hd_rules::{CopyState, Hold, ItemView, same_asked, same_turn_reply};

/// Whether the turn of a number in one journal is that of a number in another.
pub(crate) fn is_same_turn(one: &Journal, at: usize, other: &Journal, number: usize) -> bool {
    match (one.turn_at(at), other.turn_at(number)) {
        (Some(turn), Some(twin)) => are_same_turns(&turn, &twin),
        _ => false,
    }
}

/// Whether two turns are the same.
fn are_same_turns(one: &TurnRef<'_>, other: &TurnRef<'_>) -> bool {
    one.seat == other.seat
        && one.terminal == other.terminal
        && one.line == other.line
        && same_asked(&one.asked, &other.asked)
        && same_turn_reply(&one.reply, &other.reply)
}

/// Whether two desks of the library have, and show, the same of each copy, and the same holds.
pub(crate) fn are_desks_alike(one: &Desk, other: &Desk) -> bool {
    for name in COPIES {
        if copy(one, name) != copy(other, name) {
            return false;
        }
    }
    for title in TITLES {
        for patron in PATRONS {
            if hold(one, title, patron) != hold(other, title, patron) {
                return false;
            }
        }
    }
    true
}

/// Where the copy of a name is, and what a desk shows of it.
fn copy(desk: &Desk, name: &[u8]) -> Option<(CopyState, ItemView)> {
    let copy = desk.catalogue().copy(name)?;
    Some((desk.copy(copy), desk.item(copy)))
}

/// The hold of the title that the patron has.
pub(crate) fn hold(desk: &Desk, title: &[u8], patron: &[u8]) -> Option<Hold> {
    let title = desk.catalogue().title(title)?;
    let patron = desk.catalogue().patron(patron)?;
    desk.hold(title, patron)
}
