//! What changes touch.
#![tactic(auto)]

ghost use Rattle.std.specs.List.{list_any};
ghost use Rattle.std.specs.Prelude.{◌≡◌, ◌<◌, ◌≤◌, ◌+◌, [], length};
ghost use Rattle.hd_rules.specs.Known.{IsKnownCell};
ghost use Rattle.hd_rules.specs.Record.{Record};
ghost use Rattle.hd_catalogue.specs.Contents.{facts_of};
ghost use Rattle.hd_clash.specs.declared.key.TheConstants.{MOST_KEYS};
ghost use Rattle.hd_clash.specs.About.{touches};
ghost use Rattle.hd_clash.specs.ChangedKeys.{AreDistinct, HaveSameKeys, with_key, with_keys};
ghost use Rattle.hd_clash.specs.CommandKeys.{has_key, keys_of_command};
ghost use Rattle.hd_clash.specs.Keys.{keys_of, keys_of_change, keys_of_value, same_key};
ghost use Rattle.hd_clash.specs.Law.{EachCellIsKnown};

use crate::key::{Key, MOST_KEYS};
use crate::shifting::key_of_cell;
use hd_catalogue::Catalogue;
use hd_rules::{BranchNo, Change, CopyState, Value};
use std::alloc::Allocator;
use std::marker::Model;

/// The keys that the changes of one command touch, each once. They are kept in the value itself, and no call
/// takes memory.
#[derive(Drop)]
pub struct ChangedKeys {
    keys: [Key; MOST_KEYS],
    count: usize,
}

impl Model for ChangedKeys {
    ghost use Rattle.std.specs.Prelude.{List, ◌≤◌, take};
    ghost use Rattle.hd_clash.specs.declared.key.Key.{Key};
    ghost use Rattle.hd_clash.specs.declared.key.TheConstants.{MOST_KEYS};

    ghost Value = { List Key };

    ghost view = { λ keys. take keys.count keys.keys };

    ghost invariant = { λ keys. keys.count ≤ MOST_KEYS };
}

/// Whether the two are one key.
fn is_same_key(one: &Key, other: &Key) -> bool
    ensures { result ≡ same_key one.now other.now }
{
    match (one, other) {
        (Key::Title(title), Key::Title(named)) => title == named,
        (Key::Branch(branch), Key::Branch(named)) => branch == named,
        (Key::Patron(patron), Key::Patron(named)) => patron == named,
        _ => false,
    }
}

/// Whether the key is one of these.
fn is_among(key: &Key, keys: &[Key]) -> bool
    ensures { result ≡ list_any (same_key key.now) keys.now }
{
    keys.iter().any(|other| is_same_key(key, other))
}

impl ChangedKeys {
    /// No keys. Unused places have a key that means nothing.
    fn none() -> ChangedKeys
        ensures { result ≡ [] }
    {
        ChangedKeys {
            keys: [Key::Branch(BranchNo::new(0).unwrap()); MOST_KEYS],
            count: 0,
        }
    }

    /// The keys, each once.
    pub fn keys(&self) -> &[Key]
        ensures keys { result.now ≡ self.now }
        ensures few { length self.now ≤ MOST_KEYS }
    {
        &self.keys[..self.count]
    }

    /// Puts a key after the others, where it isn't among them.
    fn add(&mut self, key: Key)
        requires { length self.old < MOST_KEYS }
        ensures with_it { self.new ≡ with_key self.old key }
        ensures few { length self.new ≤ length self.old + 1 }
    {
        if !is_among(&key, self.keys()) {
            self.keys[self.count] = key;
            self.count += 1;
        }
    }

    /// Adds the branch of a place on a hold shelf, or the patron of a loan.
    fn add_value(&mut self, value: &Value)
        requires { length self.old < MOST_KEYS }
        ensures with_them { self.new ≡ with_keys self.old (keys_of_value value.now) }
        ensures few { length self.new ≤ length self.old + 1 }
    {
        match value {
            Value::Copy(CopyState::OnLoan(loan)) => self.add(Key::Patron(loan.patron)),
            Value::Copy(CopyState::OnHoldShelf(spot)) => self.add(Key::Branch(spot.branch)),
            _ => {}
        }
    }

    /// Adds what a change touches.
    fn add_change<A: Allocator + Copy>(&mut self, catalogue: &Catalogue<A>, change: &Change)
        requires room { length self.old + 3 ≤ MOST_KEYS }
        requires known { IsKnownCell (facts_of catalogue.now) change.now.cell }
        ensures with_them { let k = facts_of catalogue.now in
            self.new ≡ with_keys self.old (keys_of_change k change.now) }
        ensures few { length self.new ≤ length self.old + 3 }
    {
        self.add(key_of_cell(catalogue, &change.cell));
        self.add_value(&change.old);
        self.add_value(&change.new);
    }

    /// The keys that the changes of one command touch, each once. A record whose command asks about none of
    /// them neither clashes with the changes nor shifts.
    #[tactic(auto, using(crate::proofs::Once::one_after))]
    pub fn of<A: Allocator + Copy>(catalogue: &Catalogue<A>, changes: &[Change]) -> ChangedKeys
        requires few { length changes.now ≤ 4 }
        requires known { EachCellIsKnown (facts_of catalogue.now) changes.now }
        ensures same { HaveSameKeys result (keys_of (facts_of catalogue.now) changes.now) }
        ensures once { AreDistinct result }
        ensures few { length result ≤ MOST_KEYS }
        ensures touched { (r : Record) → let k = facts_of catalogue.now in
            list_any (has_key (keys_of_command k r.command)) result ≡ touches k changes.now r }
    {
        let mut keys = ChangedKeys::none();
        for change in changes {
            keys.add_change(catalogue, change);
        }
        keys
    }
}
