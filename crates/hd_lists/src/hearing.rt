//! What is asked by a target.
ghost use Rattle.std.specs.Prelude.{◌≡◌, IfOk, find, length, drop, option_map};
ghost use Rattle.hd_lists.specs.Hearing.{bare_list, heard_in, key_in, named_list};
ghost use Rattle.hd_lists.specs.Hearing.{place_in, places_by, raw_in};
ghost use Rattle.hd_lists.specs.Cuts.{before_mark, rest_at};
ghost use Rattle.hd_lists.specs.Questions.{key_text, map_heard, map_key};

use crate::cutting::{after_prefix, cut, split};
use crate::list::{KeyKind, LISTS, Listing};
use crate::number::number_in;
use crate::query::{after_alone, after_and_limit, day_and_after};
use crate::question::{Heard, Key, Question, renamed};
use percent_encoding::percent_decode;
use std::alloc::AllocError;

/// The list at a folder and a part that has its key in its path.
#[tactic(auto, unfolding(crate::specs::Hearing::named_list))]
fn named_list(folder: &[u8], part: &[u8]) -> Option<Listing>
    ensures { result ≡ named_list folder.now part.now }
{
    LISTS
        .iter()
        .copied()
        .find(|list| list.is_named_at(folder, part))
}

/// The list at a folder that has no key in its path.
#[tactic(auto, unfolding(crate::specs::Hearing::bare_list))]
fn bare_list(folder: &[u8]) -> Option<Listing>
    ensures { result ≡ bare_list folder.now }
{
    LISTS.iter().copied().find(|list| list.is_bare_at(folder))
}

/// The list of a path, of which this is after `/api/`, and the key there as it came.
fn place_by<'a>(folder: &'a [u8], named: Option<&'a [u8]>) -> Option<(Listing, &'a [u8])>
    ensures { option_map (λ p. (p.0, p.1.now)) result
        ≡ places_by folder.now (option_map (λ n. n.now) named.entry) }
{
    match named {
        None => match bare_list(folder) {
            Some(list) => Some((list, b"")),
            None => None,
        },
        Some(named) => {
            let (name, part) = split(named, b'/');
            match named_list(folder, part) {
                Some(list) => Some((list, name)),
                None => None,
            }
        }
    }
}

/// The list of a path, and the key there as it came.
fn place_in(path: &[u8]) -> Option<(Listing, &[u8])>
    ensures { option_map (λ p. (p.0, p.1.now)) result ≡ place_in path.now }
{
    match after_prefix(path, b"/api/") {
        Some(rest) => {
            let (folder, named) = cut(rest, b'/');
            place_by(folder, named)
        }
        None => None,
    }
}

/// The key that a kind of list is asked by, and where its page begins.
fn key_in<'a>(
    kind: KeyKind,
    name: &'a [u8],
    query: Option<&'a [u8]>,
) -> Option<(Key<&'a [u8]>, u64)>
    ensures { option_map (λ k. (map_key (λ n. n.now) k.0, k.1)) result
        ≡ key_in kind name.now (option_map (λ q. q.now) query.entry) }
{
    match kind {
        KeyKind::Name(_) => match after_alone(query) {
            Some(after) => Some((Key::Name(name), after)),
            None => None,
        },
        KeyKind::Day => match day_and_after(query) {
            Some((day, after)) => Some((Key::Day(day), after)),
            None => None,
        },
        KeyKind::Whole => match after_alone(query) {
            Some(after) => Some((Key::Whole, after)),
            None => None,
        },
        KeyKind::Most => match after_and_limit(query) {
            Some((after, most)) => Some((Key::Most(most), after)),
            None => None,
        },
        KeyKind::Number => match (number_in(name), query) {
            (Some(number), None) => Some((Key::Number(number), 0)),
            _ => None,
        },
    }
}

/// What is asked by a target. A name or a day is as it came, with its escapes.
fn question_of(target: &[u8]) -> Heard<&[u8]>
    ensures { map_heard (λ n. n.now) result ≡ raw_in target.now }
{
    let (path, query) = cut(target, b'?');
    match place_in(path) {
        None => Heard::Nothing,
        Some((list, name)) => match key_in(list.row().key, name, query) {
            None => Heard::Malformed,
            Some((key, after)) => Heard::Asked(Question { list, key, after }),
        },
    }
}

/// The bytes of a key that is a name or a day; none of another.
fn key_text<'a>(key: &Key<&'a [u8]>) -> &'a [u8]
    ensures { result.now ≡ key_text key.now }
{
    match *key {
        Key::Name(name) => name,
        Key::Day(day) => day,
        Key::Number(_) | Key::Whole | Key::Most(_) => b"",
    }
}

/// What is asked by a target. Its name or day is put into `name`, without its escapes.
///
/// # Errors
/// Out of memory.
#[tactic(auto, using(crate::proofs::Named::named_is))]
pub fn hear<'a>(target: &[u8], name: &'a mut Vec<u8>) -> Result<Heard<&'a [u8]>, AllocError>
    ensures { IfOk result (λ heard. map_heard (λ n. n.now) heard ≡ heard_in target.now) }
{
    match question_of(target) {
        Heard::Nothing => Ok(Heard::Nothing),
        Heard::Malformed => Ok(Heard::Malformed),
        Heard::Asked(raw) => {
            name.clear();
            percent_decode(key_text(&raw.key)).append_to(name)?;
            Ok(Heard::Asked(renamed(&raw, name.as_slice())))
        }
    }
}
