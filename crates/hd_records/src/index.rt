//! The index of records by what their commands ask about.
#![tactic(auto)]

ghost use Rattle.std.specs.Prelude.{◌≡◌, ◌≤◌, ◌<◌, ◌^◌, ◌++◌, ◌∷◌, [], ℕ, true, OnErr, OnOk, if◌then◌else◌};
ghost use Rattle.std.specs.Prelude.{List, filter, length, map};
ghost use Rattle.hd_catalogue.specs.Contents.{facts_of};
ghost use Rattle.hd_clash.specs.About.{touches};
ghost use Rattle.hd_clash.specs.Law.{EachCellIsKnown};
ghost use Rattle.hd_clash.specs.declared.key.Key.{Key};
ghost use Rattle.hd_clash.specs.declared.key.Key.TheVariants as key;
ghost use Rattle.hd_clash.specs.CommandKeys.{has_key, is_the};
ghost use Rattle.hd_index.specs.Rising.{AreBelow, IsRising, above, without};
ghost use Rattle.hd_index.specs.Rows.{places_of, room_of};
ghost use Rattle.hd_index.specs.Union.{union};
ghost use Rattle.hd_rules.specs.Record.{Record};
ghost use Rattle.hd_rules.specs.Run.{Rising};
ghost use Rattle.hd_records.specs.Index.{HasRoomAt, HasRoomUnder, IsIndexOf, listed_under, numbers_of};
ghost use Rattle.hd_records.specs.Survivors.{newer, survivors_of};

use hd_catalogue::Catalogue;
use hd_clash::{ChangedKeys, CommandKeys, Key};
use hd_index::{Lists, Union, unions_have_each_once};
use hd_rules::{BranchNo, Change, PatronNo, TitleNo};
use std::alloc::{AllocError, Allocator, Global};
use std::marker::Model;

/// The numbers of records, listed by the titles, patrons and branches that their commands ask about.
///
/// Only `ready` takes memory.
#[derive(Drop)]
pub(crate) struct Index<A: Allocator = Global> {
    titles: Lists<A>,
    patrons: Lists<A>,
    branches: Lists<A>,
}

impl<A: Allocator> Model for Index<A> {
    ghost use Rattle.hd_records.specs.IndexValue.{IndexValue};

    ghost Value = { IndexValue };

    ghost view = { λ i. record { titles = i.titles; patrons = i.patrons; branches = i.branches } };
}

impl<A: Allocator + Copy> Index<A> {
    /// Nothing is listed. It takes no memory.
    pub(crate) fn new(alloc: A) -> Index<A>
        ensures { (x : Key) → listed_under x result ≡ [] }
    {
        Index {
            titles: Lists::new(alloc),
            patrons: Lists::new(alloc),
            branches: Lists::new(alloc),
        }
    }

    /// Makes room for one more number under the keys. It is out of memory only where there was no
    /// room under one of them, and then changes no list.
    pub(crate) fn ready(&mut self, keys: CommandKeys) -> Result<(), AllocError>
        ensures listed { (x : Key) → listed_under x self.new ≡ listed_under x self.old }
        ensures ok { OnOk result (HasRoomUnder keys self.new) }
        ensures full { OnErr result (HasRoomUnder keys self.old → ⊥) }
    {
        ready_at(&mut self.titles, Some(keys.title.number()))?;
        ready_at(&mut self.patrons, number_of_patron(keys.patron))?;
        ready_at(&mut self.branches, number_of_branch(keys.branch))
    }

    /// The numbers above one of the listed records that the changes touch, each once.
    pub(crate) fn touched(
        &self,
        catalogue: &Catalogue<A>,
        changes: &[Change],
        number: u32,
    ) -> Union<'_>
        requires few { length changes.now ≤ 4 }
        requires known { EachCellIsKnown (facts_of catalogue.now) changes.now }
        ensures { let k = facts_of catalogue.now in
            (records : List Record) → Rising 1 (survivors_of records) → IsIndexOf k records self.now
            → union result ≡ numbers_of (filter (touches k changes.now) (newer number records)) }
    {
        unions_have_each_once();
        let keys = ChangedKeys::of(catalogue, changes);
        self.after_any(keys.keys(), number)
    }
}

impl<A: Allocator> Index<A> {
    /// Lists a number, above all that are listed, under the keys. It takes no memory.
    pub(crate) fn push(&mut self, keys: CommandKeys, number: u32)
        requires room { HasRoomUnder keys self.old }
        requires above { (x : Key) → AreBelow number (listed_under x self.old) }
        ensures { (x : Key) → listed_under x self.new
            ≡ (if has_key keys x then listed_under x self.old ++ number ∷ [] else listed_under x self.old) }
    {
        push_at(&mut self.titles, Some(keys.title.number()), number);
        push_at(&mut self.patrons, number_of_patron(keys.patron), number);
        push_at(&mut self.branches, number_of_branch(keys.branch), number);
    }

    /// Lists a number no longer under the keys. It takes no memory.
    pub(crate) fn take(&mut self, keys: CommandKeys, number: u32)
        ensures { (x : Key) → listed_under x self.new
            ≡ (if has_key keys x then without number (listed_under x self.old) else listed_under x self.old) }
    {
        take_at(&mut self.titles, Some(keys.title.number()), number);
        take_at(&mut self.patrons, number_of_patron(keys.patron), number);
        take_at(&mut self.branches, number_of_branch(keys.branch), number);
    }

    /// The numbers that are listed under a title.
    pub(crate) fn of_title(&self, title: TitleNo) -> &[u32]
        ensures { result.now ≡ listed_under (key.Title title) self.now }
    {
        self.titles.of(title.number() as usize)
    }

    /// The numbers above one that are listed under a key.
    fn after(&self, key: &Key, number: u32) -> &[u32]
        ensures listed { result.now ≡ above number (listed_under key.now self.now) }
        ensures rising { IsRising result.now }
    {
        match key {
            Key::Title(title) => self.titles.after(title.number() as usize, number),
            Key::Branch(branch) => self.branches.after(branch.number() as usize, number),
            Key::Patron(patron) => self.patrons.after(patron.number() as usize, number),
        }
    }

    /// The numbers above one that are listed under some of the keys, each once.
    pub(crate) fn after_any(&self, keys: &[Key], number: u32) -> Union<'_>
        requires { length keys.now ≤ 12 }
        ensures { result ≡ map (λ x. above number (listed_under x self.now)) keys.now }
    {
        let mut union = Union::new();
        for key in keys {
            union.add(self.after(key, number));
        }
        union
    }
}

/// The number of a patron, if there is one.
fn number_of_patron(patron: Option<PatronNo>) -> Option<u32>
    ensures { result ≡ patron }
{
    patron.map(|patron| patron.number())
}

/// The number of a branch, if there is one.
fn number_of_branch(branch: Option<BranchNo>) -> Option<u32>
    ensures { result ≡ branch }
{
    branch.map(|branch| u32::from(branch.number()))
}

/// Makes room for one more place at a number, if there is one.
fn ready_at<A: Allocator + Copy>(
    lists: &mut Lists<A>,
    number: Option<u32>,
) -> Result<(), AllocError>
    ensures places { (n : ℕ) → places_of n lists.new ≡ places_of n lists.old }
    ensures ok { OnOk result (HasRoomAt number lists.new) }
    ensures full { OnErr result (HasRoomAt number lists.old → ⊥) }
{
    match number {
        Some(number) => lists.ready(number as usize),
        None => Ok(()),
    }
}

/// Puts a place at a number, if there is one.
fn push_at<A: Allocator>(lists: &mut Lists<A>, number: Option<u32>, place: u32)
    requires room { HasRoomAt number lists.old }
    requires above { (n : ℕ) → AreBelow place (places_of n lists.old) }
    ensures { (n : ℕ) → places_of n lists.new
        ≡ (if is_the n number then places_of n lists.old ++ place ∷ [] else places_of n lists.old) }
{
    if let Some(number) = number {
        lists.push(number as usize, place);
    }
}

/// Takes a place out at a number, if there is one.
fn take_at<A: Allocator>(lists: &mut Lists<A>, number: Option<u32>, place: u32)
    ensures { (n : ℕ) → places_of n lists.new
        ≡ (if is_the n number then without place (places_of n lists.old) else places_of n lists.old) }
{
    if let Some(number) = number {
        lists.take(number as usize, place);
    }
}
