//! The holds without a copy, by what they wait for.
ghost use Rattle.std.specs.Prelude.{◌≡◌, ◌+◌, ◌<◌, ◌≤◌, [], OnErr, OnOk, if◌then◌else◌};
ghost use Rattle.hd_queue.specs.Holds.{with_hold, without};
ghost use Rattle.hd_queue.specs.Waiting.{waits_at_branch, waits_for_any, waits_for_one};
ghost use Rattle.hd_queue.specs.WaitingValue.{IsListed, IsAbsent};

use crate::lent::HoldSlices;
use crate::list::HoldList;
use hd_rules::{Hold, HoldKind};
use std::alloc::{AllocError, Allocator};
use std::marker::Model;

/// The holds of one title without a copy, in three lists, each in order of stamp.
#[derive(Drop)]
pub(crate) struct WaitingLists<A: Allocator> {
    /// Those of any copy.
    for_any: HoldList<A>,
    /// Those of one copy.
    for_one: HoldList<A>,
    /// Those of the copies of their pickup.
    at_branch: HoldList<A>,
}

impl<A: Allocator> Model for WaitingLists<A> {
    ghost use Rattle.std.specs.Prelude.{min};
    ghost use Rattle.hd_queue.specs.WaitingValue.{WaitingValue};

    ghost Value = { WaitingValue };

    ghost view = { λ w. record {
      for_any = w.for_any.holds;
      for_one = w.for_one.holds;
      at_branch = w.at_branch.holds;
      room = min w.for_any.room (min w.for_one.room w.at_branch.room);
    } };
}

impl<A: Allocator + Copy> WaitingLists<A> {
    /// Lists without holds. They take no memory.
    pub(crate) fn new(alloc: A) -> WaitingLists<A>
        ensures for_any { result.for_any ≡ [] }
        ensures for_one { result.for_one ≡ [] }
        ensures at_branch { result.at_branch ≡ [] }
    {
        WaitingLists {
            for_any: HoldList::new(alloc),
            for_one: HoldList::new(alloc),
            at_branch: HoldList::new(alloc),
        }
    }

    /// Makes room for that many more holds in each list.
    ///
    /// It is out of memory only where a list had less room, and the holds stay.
    pub(crate) fn ready(&mut self, more: usize) -> Result<(), AllocError>
        ensures for_any { self.new.for_any ≡ self.old.for_any }
        ensures for_one { self.new.for_one ≡ self.old.for_one }
        ensures at_branch { self.new.at_branch ≡ self.old.at_branch }
        ensures ok { OnOk result (more ≤ self.new.room) }
        ensures full { OnErr result (self.old.room < more) }
        ensures room { self.old.room ≤ self.new.room }
    {
        self.for_any.ready(more)?;
        self.for_one.ready(more)?;
        self.at_branch.ready(more)
    }
}

impl<A: Allocator> WaitingLists<A> {
    /// Puts a hold into the list of its kind, unless it has a copy. It takes no memory.
    pub(crate) fn put(&mut self, hold: &Hold)
        requires room { 0 < self.old.room }
        requires for_any { IsAbsent hold.now self.old.for_any }
        requires for_one { IsAbsent hold.now self.old.for_one }
        requires at_branch { IsAbsent hold.now self.old.at_branch }
        ensures for_any { self.new.for_any
            ≡ (if waits_for_any hold.now then with_hold self.old.for_any hold.now else self.old.for_any) }
        ensures for_one { self.new.for_one
            ≡ (if waits_for_one hold.now then with_hold self.old.for_one hold.now else self.old.for_one) }
        ensures at_branch { self.new.at_branch
            ≡ (if waits_at_branch hold.now then with_hold self.old.at_branch hold.now
            else self.old.at_branch) }
        ensures room { self.old.room ≤ self.new.room + 1 }
    {
        if hold.copy.is_none() {
            match hold.kind {
                HoldKind::Any => self.for_any.put(*hold),
                HoldKind::One(_) => self.for_one.put(*hold),
                HoldKind::AtBranch => self.at_branch.put(*hold),
            }
        }
    }

    /// Takes a hold out of the list of its kind, unless it has a copy. It takes no memory.
    pub(crate) fn remove(&mut self, hold: &Hold)
        requires for_any { IsListed waits_for_any hold.now self.old.for_any }
        requires for_one { IsListed waits_for_one hold.now self.old.for_one }
        requires at_branch { IsListed waits_at_branch hold.now self.old.at_branch }
        ensures for_any { self.new.for_any
            ≡ (if waits_for_any hold.now then without self.old.for_any hold.now.patron
            else self.old.for_any) }
        ensures for_one { self.new.for_one
            ≡ (if waits_for_one hold.now then without self.old.for_one hold.now.patron
            else self.old.for_one) }
        ensures at_branch { self.new.at_branch
            ≡ (if waits_at_branch hold.now then without self.old.at_branch hold.now.patron
            else self.old.at_branch) }
        ensures room { self.old.room ≤ self.new.room }
    {
        if hold.copy.is_some() {
            return;
        }
        match hold.kind {
            HoldKind::Any => self.for_any.remove(hold),
            HoldKind::One(_) => self.for_one.remove(hold),
            HoldKind::AtBranch => self.at_branch.remove(hold),
        }
    }

    /// The holds of any copy, lent.
    pub(crate) fn for_any(&self) -> HoldSlices<'_, A>
        ensures { result ≡ self.now.for_any }
    {
        self.for_any.lend()
    }

    /// The holds of one copy, lent.
    pub(crate) fn for_one(&self) -> HoldSlices<'_, A>
        ensures { result ≡ self.now.for_one }
    {
        self.for_one.lend()
    }

    /// The holds of the copies of their pickup, lent.
    pub(crate) fn at_branch(&self) -> HoldSlices<'_, A>
        ensures { result ≡ self.now.at_branch }
    {
        self.at_branch.lend()
    }
}
