//! The titles of which patrons have holds.
ghost use Rattle.std.specs.Prelude.{◌≡◌, ◌≢◌, ◌↔◌, ◌⊎◌, ◌+◌, ◌<◌, ◌≤◌, ◌%◌, ℕ, IfOk, OnErr, OnOk};
ghost use Rattle.std.specs.Prelude.{length, map};
ghost use Rattle.std.specs.List.{All, Contains};
ghost use Rattle.std.specs.Option.{ForSome};
ghost use Rattle.hd_holds.specs.declared.held_title.HeldTitle.{HeldTitle};
ghost use Rattle.hd_holds.specs.HeldListsValue.{HeldListValue, IsListed};
ghost use Rattle.hd_holds.specs.HeldTitles.{IsOf, IsRising};

use crate::held_list::HeldList;
use crate::held_title::HeldTitle;
use hd_rules::{Hold, PatronNo, TitleNo};
use std::alloc::{AllocError, Allocator, Global};
use std::marker::Model;

/// How many lists the patrons share, at most.
const MOST_LISTS: usize = 1024;

/// How much room is made at a time, so that few calls of `ready` walk the lists.
const ROOM: usize = 64;

/// The titles of which each patron has a hold. Patrons whose numbers leave the same remainder share a list.
///
/// Only `new` and `ready` take memory.
#[derive(Drop)]
pub(crate) struct HeldLists<A: Allocator = Global> {
    lists: Vec<HeldList<A>, A>,
    /// How many more each list has room for, at least.
    room: usize,
}

impl<A: Allocator> Model for HeldLists<A> {
    ghost use Rattle.std.specs.Prelude.{◌<◌, ◌≤◌, length, map};
    ghost use Rattle.std.specs.List.{All};
    ghost use Rattle.hd_holds.specs.HeldListsValue.{HeldListsValue};

    ghost Value = { HeldListsValue };

    ghost view = { λ h. record { lists = map (λ l. l.titles) h.lists.items; room = h.room } };

    ghost invariant = { λ h. (0 < length h.lists.items) × All (λ l. h.room ≤ l.room) h.lists.items };
}

impl<A: Allocator + Copy> HeldLists<A> {
    /// No held titles, for that many patrons.
    pub(crate) fn new(alloc: A, patrons: usize) -> Result<HeldLists<A>, AllocError>
        ensures { IfOk result (λ made. (held : HeldTitle) → IsListed made held → ⊥) }
    {
        let count = patrons.clamp(1, MOST_LISTS);
        let mut lists = Vec::with_capacity(alloc, count)?;
        for _ in 0..count {
            lists.push_reserved(HeldList::new(alloc));
        }
        Ok(HeldLists { lists, room: 0 })
    }
}

impl<A: Allocator> HeldLists<A> {
    /// How many more there is room for, of whichever patrons.
    pub(crate) fn room(&self) -> usize
        ensures { result ≡ self.now.room }
    {
        self.room
    }

    /// Makes room for that many more, of whichever patrons.
    ///
    /// It is out of memory only where there was less room, and then changes nothing.
    pub(crate) fn ready(&mut self, more: usize) -> Result<(), AllocError>
        ensures lists { self.new.lists ≡ self.old.lists }
        ensures room { self.old.room ≤ self.new.room }
        ensures ok { OnOk result (more ≤ self.new.room) }
        ensures err { OnErr result (self.new ≡ self.old) }
        ensures full { OnErr result (self.old.room < more) }
    {
        if self.room < more {
            let room = more.max(ROOM);
            make_room(&mut self.lists, room)?;
            self.room = room;
        }
        Ok(())
    }

    /// Gives room up: there was this much before.
    pub(crate) fn give_up(&mut self, room: usize)
        requires { room ≤ self.old.room }
        ensures lists { self.new.lists ≡ self.old.lists }
        ensures room { self.new.room ≡ room }
    {
        self.room = room;
    }

    /// Takes the title of a patron's hold out, if there is such a hold. It takes no memory.
    pub(crate) fn take_of(&mut self, title: TitleNo, hold: &Option<Hold>)
        ensures each { (x : HeldTitle) → IsListed self.new x
            ↔ ((IsOf title hold.now x → ⊥) × IsListed self.old x) }
        ensures room { self.old.room ≤ self.new.room }
    {
        if let Some(hold) = hold {
            self.take(&HeldTitle::of_hold(title, hold));
        }
    }

    /// Puts the title of a patron's hold in, if there is such a hold. It takes no memory, and there must be
    /// room for it.
    pub(crate) fn put_of(&mut self, title: TitleNo, hold: &Option<Hold>)
        requires { ForSome hold.now (λ hold. 0 < self.old.room) }
        ensures each { (x : HeldTitle) → IsListed self.new x ↔ (IsOf title hold.now x ⊎ IsListed self.old x) }
        ensures room { self.old.room ≤ self.new.room + 1 }
    {
        if let Some(hold) = hold {
            self.put(&HeldTitle::of_hold(title, hold));
        }
    }

    /// Puts one in at its place, if it isn't there. It takes no memory, and there must be room.
    fn put(&mut self, held: &HeldTitle)
        requires { 0 < self.old.room }
        ensures each { (x : HeldTitle) → IsListed self.new x ↔ ((x ≡ held.now) ⊎ IsListed self.old x) }
        ensures room { self.old.room ≤ self.new.room + 1 }
    {
        let at = self.list_number(held.patron);
        self.lists[at].put(held);
        self.room -= 1;
    }

    /// Takes one out, if it is there. It takes no memory.
    fn take(&mut self, held: &HeldTitle)
        ensures each { (x : HeldTitle) → IsListed self.new x ↔ ((x ≢ held.now) × IsListed self.old x) }
        ensures room { self.old.room ≤ self.new.room }
    {
        let at = self.list_number(held.patron);
        self.lists[at].take(held);
    }

    /// Those of a patron.
    pub(crate) fn of(&self, patron: PatronNo) -> &[HeldTitle]
        ensures each { (x : HeldTitle) → Contains result.now x
            ↔ ((x.patron ≡ patron) × IsListed self.now x) }
        ensures rising { IsRising result.now }
    {
        self.lists[self.list_number(patron)].of(patron)
    }

    /// The number of the list in which a patron's titles are.
    fn list_number(&self, patron: PatronNo) -> usize
        ensures number { result ≡ patron % length self.now.lists }
        ensures within { result < length self.now.lists }
    {
        patron.number() as usize % self.lists.len()
    }
}

/// Makes room for that many more in each list.
fn make_room<A: Allocator>(lists: &mut [HeldList<A>], more: usize) -> Result<(), AllocError>
    ensures titles { map (λ l. l.titles) lists.new ≡ map (λ l. l.titles) lists.old }
    ensures ok { OnOk result (All (λ l. more ≤ l.room) lists.new) }
    ensures room { (n : ℕ) → All (λ (l : HeldListValue). n ≤ l.room) lists.old
        → All (λ (l : HeldListValue). n ≤ l.room) lists.new }
{
    for at in 0..lists.len() {
        lists[at].ready(more)?;
    }
    Ok(())
}
