//! What a server is asked for a page of a list.
ghost use Rattle.std.specs.Prelude.{◌≡◌};
ghost use Rattle.hd_lists.specs.Questions.{map_key, map_question};
ghost use Rattle.hd_terminal_output.specs.Pages.{page_asked, page_key};

use hd_command_line::ListOrder;
use hd_lists::{Key, Question};

/// What is asked for the page that begins there. A page of turns has so many rows at most.
pub(crate) fn page_of<'a>(order: &ListOrder<'a>, after: u64, most: u64) -> Question<&'a [u8]>
    ensures { map_question (λ n. n.now) result ≡ page_asked order.now.list order.now.key after most }
{
    Question {
        list: order.list,
        key: key_of(&order.key, most),
        after,
    }
}

/// The key of a page. Of turns it has so many rows at most.
fn key_of<'a>(key: &Key<&'a str>, most: u64) -> Key<&'a [u8]>
    ensures { map_key (λ n. n.now) result ≡ page_key key.now most }
{
    match *key {
        Key::Name(name) => Key::Name(name.as_bytes()),
        Key::Day(day) => Key::Day(day.as_bytes()),
        Key::Number(number) => Key::Number(number),
        Key::Whole => Key::Whole,
        Key::Most(_) => Key::Most(most),
    }
}
