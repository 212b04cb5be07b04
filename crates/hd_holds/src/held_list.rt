//! One list of held titles.
ghost use Rattle.std.specs.Prelude.{◌≡◌, ◌≢◌, ◌↔◌, ◌⊎◌, ◌+◌, ◌<◌, ◌≤◌, [], OnOk, false, true};
ghost use Rattle.std.specs.Prelude.{drop, length, take};
ghost use Rattle.std.specs.List.{AllByRecursion, Contains};
ghost use Rattle.hd_holds.specs.declared.held_title.HeldTitle.{HeldTitle};
ghost use Rattle.hd_holds.specs.HeldTitles.{BeginsWith, IsRising, is_before};

use crate::held_title::HeldTitle;
use hd_rules::PatronNo;
use std::alloc::{AllocError, Allocator, Global};
use std::marker::Model;

/// Held titles in order of patron, stamp and title, each once.
///
/// Only `ready` takes memory.
#[derive(Drop)]
pub(crate) struct HeldList<A: Allocator = Global> {
    titles: Vec<HeldTitle, A>,
}

impl<A: Allocator> Model for HeldList<A> {
    ghost use Rattle.std.specs.Prelude.{◌-◌, vec_capacity, vec_len};
    ghost use Rattle.hd_holds.specs.HeldListsValue.{HeldListValue};
    ghost use Rattle.hd_holds.specs.HeldTitles.{IsRising};

    ghost Value = { HeldListValue };

    ghost view = { λ l. record { titles = l.titles.items; room = vec_capacity l.titles - vec_len l.titles } };

    ghost invariant = { λ l. IsRising l.titles.items };
}

impl<A: Allocator> HeldList<A> {
    /// No held titles. It takes no memory.
    pub(crate) fn new(alloc: A) -> HeldList<A>
        ensures { result.titles ≡ [] }
    {
        HeldList {
            titles: Vec::new(alloc),
        }
    }

    /// Makes room for that many more.
    pub(crate) fn ready(&mut self, more: usize) -> Result<(), AllocError>
        ensures titles { self.new.titles ≡ self.old.titles }
        ensures room { self.old.room ≤ self.new.room }
        ensures ok { OnOk result (more ≤ self.new.room) }
    {
        self.titles.reserve(more)
    }

    /// Puts one in at its place, if it isn't there. It takes no memory, and there must be room.
    pub(crate) fn put(&mut self, held: &HeldTitle)
        requires { 0 < self.old.room }
        ensures each { (x : HeldTitle) → Contains self.new.titles x
            ↔ ((x ≡ held.now) ⊎ Contains self.old.titles x) }
        ensures room { self.old.room ≤ self.new.room + 1 }
    {
        let at = number_before(&self.titles, held);
        if !stands_at(&self.titles, at, held) {
            self.titles.insert(at, *held).unwrap();
        }
    }

    /// Takes one out, if it is there. It takes no memory.
    pub(crate) fn take(&mut self, held: &HeldTitle)
        ensures each { (x : HeldTitle) → Contains self.new.titles x
            ↔ ((x ≢ held.now) × Contains self.old.titles x) }
        ensures room { self.old.room ≤ self.new.room }
    {
        let at = number_before(&self.titles, held);
        if stands_at(&self.titles, at, held) {
            self.titles.remove(at);
        }
    }

    /// Those of a patron.
    pub(crate) fn of(&self, patron: PatronNo) -> &[HeldTitle]
        ensures each { (x : HeldTitle) → Contains result.now x
            ↔ ((x.patron ≡ patron) × Contains self.now.titles x) }
        ensures rising { IsRising result.now }
    {
        let first = self.titles.partition_point(|held| held.patron < patron);
        let rest = &self.titles[first..];
        let count = rest.partition_point(|held| held.patron <= patron);
        &rest[..count]
    }
}

/// How many of a list are before one.
fn number_before(titles: &[HeldTitle], held: &HeldTitle) -> usize
    requires { IsRising titles.now }
    ensures within { result ≤ length titles.now }
    ensures before { AllByRecursion (λ x. is_before x held.now ≡ true) (take result titles.now) }
    ensures after { AllByRecursion (λ x. is_before x held.now ≡ false) (drop result titles.now) }
{
    titles.partition_point(|other| other.is_before(held))
}

/// Whether one is in a list at the place right after those before it.
fn stands_at(titles: &[HeldTitle], at: usize, held: &HeldTitle) -> bool
    requires rising { IsRising titles.now }
    requires before { AllByRecursion (λ x. is_before x held.now ≡ true) (take at titles.now) }
    requires after { AllByRecursion (λ x. is_before x held.now ≡ false) (drop at titles.now) }
    ensures { BeginsWith result held.now (drop at titles.now) }
{
    match titles.get(at) {
        Some(there) => !held.is_before(there),
        None => false,
    }
}
