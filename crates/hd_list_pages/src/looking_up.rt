//! What is asked, by the catalogue's numbers.
ghost use Rattle.std.specs.Prelude.{◌≡◌, ◌<◌, IfSome};
ghost use Rattle.hd_catalogue.specs.Contents.{facts_of};
ghost use Rattle.hd_lists.specs.Questions.{map_question};
ghost use Rattle.hd_list_rows.specs.Topics.{count_of};
ghost use Rattle.hd_list_pages.specs.Seeing.{IsKnown, IsLookedUp, number_of, with_key};

use hd_catalogue::Catalogue;
use hd_day_text::day_said;
use hd_lists::{Key, KeyKind, Kind, Question};
use std::alloc::Allocator;

/// What is asked, by the catalogue's numbers.
#[derive(Clone, Copy)]
pub(crate) enum LookedUp {
    /// This is asked.
    Known(Question<u32>),
    /// The catalogue has no such name.
    NoName,
    /// There is no such day.
    NoDay,
}

/// The number of what has a name.
fn number_of<A: Allocator + Copy>(catalogue: &Catalogue<A>, kind: Kind, name: &[u8]) -> Option<u32>
    ensures number { result ≡ number_of catalogue.now kind name.now }
    ensures there { IfSome result (λ n. n < count_of (facts_of catalogue.now) kind) }
{
    match kind {
        Kind::Copy => match catalogue.copy(name) {
            Some(copy) => Some(copy.number()),
            None => None,
        },
        Kind::Title => match catalogue.title(name) {
            Some(title) => Some(title.number()),
            None => None,
        },
        Kind::Patron => match catalogue.patron(name) {
            Some(patron) => Some(patron.number()),
            None => None,
        },
        Kind::Branch => match catalogue.branch(name) {
            Some(branch) => Some(u32::from(branch.number())),
            None => None,
        },
    }
}

/// The question with another key.
fn with_key(question: &Question<&[u8]>, key: Key<u32>) -> Question<u32>
    ensures { result ≡ with_key (map_question (λ n. n.now) question.now) key }
{
    Question {
        list: question.list,
        key,
        after: question.after,
    }
}

/// What is asked, by the catalogue's numbers. A name of a list that is asked by no name is none.
pub(crate) fn look_up<A: Allocator + Copy>(
    catalogue: &Catalogue<A>,
    question: &Question<&[u8]>,
) -> LookedUp
    ensures asked { IsLookedUp catalogue.now (map_question (λ n. n.now) question.now) result }
    ensures known { IsKnown (facts_of catalogue.now) result }
{
    match (question.key, question.list.row().key) {
        (Key::Name(name), KeyKind::Name(kind)) => match number_of(catalogue, kind, name) {
            Some(number) => LookedUp::Known(with_key(question, Key::Name(number))),
            None => LookedUp::NoName,
        },
        (Key::Name(_), _) => LookedUp::NoName,
        (Key::Day(day), _) => match day_said(day) {
            Some(day) => LookedUp::Known(with_key(question, Key::Day(day.number()))),
            None => LookedUp::NoDay,
        },
        (Key::Number(number), _) => LookedUp::Known(with_key(question, Key::Number(number))),
        (Key::Whole, _) => LookedUp::Known(with_key(question, Key::Whole)),
        (Key::Most(most), _) => LookedUp::Known(with_key(question, Key::Most(most))),
    }
}
