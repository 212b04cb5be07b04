//! Questions.
ghost use Rattle.std.specs.Prelude.{◌≡◌};
ghost use Rattle.hd_lists.specs.Questions.{map_key, map_question};

use crate::list::Listing;

/// What a list is asked by. `N` is the type of a name and of a day: bytes as they are asked, a number once
/// they are looked up.
#[derive(Clone, Copy, Debug, PartialEq, Eq)]
pub enum Key<N> {
    /// The name of what the list is of.
    Name(N),
    /// A day.
    Day(N),
    /// A number.
    Number(u64),
    /// Nothing.
    Whole,
    /// This many rows at most.
    Most(u64),
}

/// A question: a list, what it is asked by, and where its page begins: 0, or what the last row of the page
/// before gave as `next`.
#[derive(Clone, Copy, Debug, PartialEq, Eq)]
pub struct Question<N> {
    /// The list.
    pub list: Listing,
    /// What it is asked by.
    pub key: Key<N>,
    /// Where the page begins.
    pub after: u64,
}

/// What is heard in a target.
#[derive(Clone, Copy)]
pub enum Heard<N> {
    /// It names no list.
    Nothing,
    /// It names a list, and doesn't ask as that is asked.
    Malformed,
    /// A question.
    Asked(Question<N>),
}

/// The key, with this as its name or day.
fn rekeyed<M: Copy, N: Copy>(key: &Key<M>, name: N) -> Key<N>
    ensures { result ≡ map_key (λ _. name) key.now }
{
    match key {
        Key::Name(_) => Key::Name(name),
        Key::Day(_) => Key::Day(name),
        Key::Number(number) => Key::Number(*number),
        Key::Whole => Key::Whole,
        Key::Most(most) => Key::Most(*most),
    }
}

/// The question, with this as its name or day.
pub(crate) fn renamed<M: Copy, N: Copy>(question: &Question<M>, name: N) -> Question<N>
    ensures { result ≡ map_question (λ _. name) question.now }
{
    Question {
        list: question.list,
        key: rekeyed(&question.key, name),
        after: question.after,
    }
}
