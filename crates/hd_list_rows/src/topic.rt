//! What a look goes over.
ghost use Rattle.std.specs.Prelude.{◌≡◌};
ghost use Rattle.hd_list_rows.specs.Topics.{topic_of};

use hd_lists::{Key, Listing, Question};

/// What a look goes over, by numbers.
#[derive(Clone, Copy)]
pub(crate) enum Topic {
    /// A copy.
    Copy(u32),
    /// The holds of a title.
    Queue(u32),
    /// The loans of a patron and then their holds.
    Patron(u32),
    /// The holds whose last day was before a day.
    Expired(u32),
    /// So many turns at most.
    Turns(u64),
    /// A command.
    Command(u64),
    /// The copies on a list.
    Copies,
}

/// What a look for a page of a list goes over. A list that isn't named here is of copies.
pub(crate) fn topic_of(asked: &Question<u32>) -> Topic
    ensures { result ≡ topic_of asked.now.list asked.now.key }
{
    match (asked.list, asked.key) {
        (Listing::Copy, Key::Name(copy)) => Topic::Copy(copy),
        (Listing::Queue, Key::Name(title)) => Topic::Queue(title),
        (Listing::Patron, Key::Name(patron)) => Topic::Patron(patron),
        (Listing::Expired, Key::Day(day)) => Topic::Expired(day),
        (Listing::Turns, Key::Most(most)) => Topic::Turns(most),
        (Listing::Command, Key::Number(number)) => Topic::Command(number),
        _ => Topic::Copies,
    }
}
