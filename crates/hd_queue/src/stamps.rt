//! The stamps of the holds of one title, by patron.
ghost use Rattle.std.specs.Prelude.{◌≡◌, ℕ, ◌+◌, ◌<◌, ◌≤◌, ◌==◌, None, Some, OnErr, OnOk, if◌then◌else◌};
ghost use Rattle.hd_queue.specs.StampsValue.{stamp_of};

use hd_rules::PatronNo;
use indexmap::IndexMap;
use std::alloc::{AllocError, Allocator};
use std::hash::{BuildHasherDefault, FoldHasher};
use std::marker::Model;

/// The stamp of each patron's hold of one title.
///
/// The table hashes by a fixed seed: its keys are the numbers of the library's own patrons.
#[derive(Drop)]
pub(crate) struct Stamps<A: Allocator> {
    by_patron: IndexMap<PatronNo, u64, BuildHasherDefault<FoldHasher>, A>,
}

impl<A: Allocator> Model for Stamps<A> {
    ghost use Rattle.indexmap.specs.IndexMap.{spare};
    ghost use Rattle.hd_queue.specs.StampsValue.{StampsValue};

    ghost Value = { StampsValue };

    ghost view = { λ s. record { entries = s.by_patron.entries; room = spare s.by_patron } };
}

impl<A: Allocator + Copy> Stamps<A> {
    /// No stamps. They take no memory.
    pub(crate) fn new(alloc: A) -> Stamps<A>
        ensures { (patron : ℕ) → stamp_of result patron ≡ None }
    {
        Stamps {
            by_patron: IndexMap::new(alloc),
        }
    }
}

impl<A: Allocator> Stamps<A> {
    /// Makes room for that many more stamps. It is out of memory only where there was less room, and
    /// the stamps stay.
    pub(crate) fn ready(&mut self, more: usize) -> Result<(), AllocError>
        ensures stamps { (patron : ℕ) → stamp_of self.new patron ≡ stamp_of self.old patron }
        ensures ok { OnOk result (more ≤ self.new.room) }
        ensures full { OnErr result (self.old.room < more) }
        ensures room { self.old.room ≤ self.new.room }
    {
        self.by_patron.reserve(more)
    }

    /// The patron's stamp becomes this. It takes no memory.
    pub(crate) fn put(&mut self, patron: PatronNo, stamp: u64)
        requires { 0 < self.old.room }
        ensures stamps { (p : ℕ) → stamp_of self.new p
            ≡ (if patron == p then Some stamp else stamp_of self.old p) }
        ensures room { self.old.room ≤ self.new.room + 1 }
    {
        let _ = self.by_patron.insert(patron, stamp).unwrap();
    }

    /// The patron has no stamp any more. It takes no memory.
    pub(crate) fn remove(&mut self, patron: PatronNo)
        ensures stamps { (p : ℕ) → stamp_of self.new p
            ≡ (if patron == p then None else stamp_of self.old p) }
        ensures room { self.old.room ≤ self.new.room }
    {
        let _ = self.by_patron.swap_remove(&patron);
    }

    /// The patron's stamp, or `None` where there is none.
    pub(crate) fn of(&self, patron: PatronNo) -> Option<u64>
        ensures { result ≡ stamp_of self.now patron }
    {
        self.by_patron.get(&patron).copied()
    }
}
