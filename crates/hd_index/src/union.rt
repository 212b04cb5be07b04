//! Going over several rising lists at once.
ghost use Rattle.std.specs.Prelude.{◌≡◌, ◌<◌, [], ◌∷◌, ◌++◌, None, length, map};
ghost use Rattle.std.specs.Iterator.{YieldsFirst, item_count};
ghost use Rattle.std.specs.List.{AllByRecursion};
ghost use Rattle.hd_index.specs.Rising.{IsRising};
ghost use Rattle.hd_index.specs.Union.{IsNotBelow, least_first, past, union};

use std::marker::Model;

/// The numbers of at most twelve rising lists, rising, each once, however many of the lists have it.
///
/// The lists are lent, and no call takes memory.
#[derive(Drop)]
pub struct Union<'a> {
    lists: [&'a [u32]; 12],
    count: usize,
    /// No list behind the first begins with a smaller number.
    others: u64,
}

impl<'a> Model for Union<'a> {
    ghost use Rattle.std.specs.Prelude.{List, ℕ, map, take};
    ghost use Rattle.hd_index.specs.Union.{AreUnionLists};

    ghost Value = { List (List ℕ) };

    ghost view = { λ u. map (λ list. list.now) (take u.count u.lists) };

    ghost invariant = { λ u. AreUnionLists u.count u.others (map (λ list. list.now) (take u.count u.lists)) };
}

impl<'a> Union<'a> {
    /// No lists.
    pub fn new() -> Union<'a>
        ensures { result ≡ [] }
    {
        Union {
            lists: [&[]; 12],
            count: 0,
            others: 0,
        }
    }

    /// Adds a list.
    pub fn add(&mut self, list: &'a [u32])
        requires few { length self.old < 12 }
        requires rising { IsRising list.now }
        ensures { self.new ≡ self.old ++ list.now ∷ [] }
    {
        self.lists[self.count] = list;
        self.count += 1;
        self.others = 0;
    }
}

impl<'a> Iterator for Union<'a> {
    type Item = u32;

    ghost next_gives = { YieldsFirst (λ lists. union lists) };

    ghost remaining = { item_count (λ lists. union lists) };

    fn next(&mut self) -> Option<u32> {
        if let Some((first, rest)) = self.lists[0].split_first() {
            if u64::from(*first) < self.others {
                self.lists[0] = rest;
                return Some(*first);
            }
        }
        let count = self.count;
        let least = least_first(&self.lists[..count])?;
        pass(&mut self.lists[..count], least);
        self.others = lower_bound(&self.lists[1..count]);
        Some(least)
    }
}

/// The least number that a list begins with, or `None` where all are empty.
fn least_first(lists: &[&[u32]]) -> Option<u32>
    ensures { result ≡ least_first None (map (λ list. list.now) lists.now) }
{
    let mut least = None;
    for list in lists {
        if let Some(first) = list.first() {
            least = match least {
                Some(number) => Some((*first).min(number)),
                None => Some(*first),
            };
        }
    }
    least
}

/// A number that none of the lists begins below.
fn lower_bound(lists: &[&[u32]]) -> u64
    ensures { AllByRecursion (IsNotBelow result) (map (λ list. list.now) lists.now) }
{
    match least_first(lists) {
        Some(first) => u64::from(first),
        None => u64::MAX,
    }
}

/// Moves each list that begins with the number past it.
fn pass<'a>(lists: &mut [&'a [u32]], number: u32)
    ensures { map (λ list. list.now) lists.new ≡ map (past number) (map (λ list. list.now) lists.old) }
{
    for list in lists.iter_mut() {
        if let Some((first, rest)) = list.split_first() {
            if *first == number {
                *list = rest;
            }
        }
    }
}
