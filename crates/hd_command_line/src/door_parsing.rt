//! What a server is asked at its door, and which list is shown, by the words of the command line.

use crate::orders::{ListOrder, Order, Show, Status, Stop};
use crate::parsing::text_of;
use clap::ArgMatches;
use hd_lists::{Key, KeyKind, Listing};

/// What `status` is asked to do by what was found.
pub(crate) fn status_of<'a>(found: &ArgMatches<'a>) -> Order<'a> {
    Order::Status(Status {
        door: text_of(found, "door"),
    })
}

/// What `stop` is asked to do by what was found.
pub(crate) fn stop_of<'a>(found: &ArgMatches<'a>) -> Order<'a> {
    Order::Stop(Stop {
        door: text_of(found, "door"),
    })
}

/// What `show` is asked to do by what was found.
pub(crate) fn show_of<'a>(found: &ArgMatches<'a>) -> Order<'a> {
    let (shown, found) = list_found(found);
    Order::Show(Show {
        door: text_of(found, "door"),
        shown,
    })
}

/// The list that the command below says, and what was found of that command.
pub(crate) fn list_found<'f, 'a>(found: &'f ArgMatches<'a>) -> (ListOrder<'a>, &'f ArgMatches<'a>) {
    match found.subcommand() {
        Some((word, found)) => {
            let list = Listing::called(word).unwrap_or(Listing::Copies);
            (list_of(list, found), found)
        }
        None => (list_of(Listing::Copies, found), found),
    }
}

/// The list that is to be shown by what was found.
fn list_of<'a>(list: Listing, found: &ArgMatches<'a>) -> ListOrder<'a> {
    let kind = list.row().key;
    ListOrder {
        list,
        key: key_of(kind, found),
        after: after_of(kind, found),
        is_json: found.get_flag("json"),
    }
}

/// The key of such a kind that was found.
fn key_of<'a>(kind: KeyKind, found: &ArgMatches<'a>) -> Key<&'a str> {
    match kind {
        KeyKind::Name(kind) => Key::Name(text_of(found, kind.word())),
        KeyKind::Day => Key::Day(text_of(found, "day")),
        KeyKind::Number => Key::Number(u64::from(found.get_one::<u32>("number").unwrap_or(1))),
        KeyKind::Whole => Key::Whole,
        KeyKind::Most => Key::Most(u64::from(found.get_one::<u32>("limit").unwrap_or(20))),
    }
}

/// After which turn a list with a key of such a kind is to begin, where that was found.
fn after_of(kind: KeyKind, found: &ArgMatches<'_>) -> Option<u64> {
    match kind {
        KeyKind::Most => found.get_one::<u32>("after").map(u64::from),
        _ => None,
    }
}
