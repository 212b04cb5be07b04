//! One rising list of places.
ghost use Rattle.std.specs.Prelude.{◌≡◌, ◌+◌, ◌<◌, ◌≤◌, [], ◌∷◌, ◌++◌, OnErr, OnOk, length};
ghost use Rattle.hd_index.specs.Rising.{AreBelow, IsRising, above, without};

use std::alloc::{AllocError, Allocator, Global};
use std::marker::Model;

/// Places that rise.
///
/// Only `ready` takes memory.
#[derive(Drop)]
pub(crate) struct Row<A: Allocator = Global> {
    places: Vec<u32, A>,
}

impl<A: Allocator> Model for Row<A> {
    ghost use Rattle.std.specs.Prelude.{◌-◌, vec_capacity, vec_len};
    ghost use Rattle.hd_index.specs.RowValue.{RowValue};
    ghost use Rattle.hd_index.specs.Rising.{IsRising};

    ghost Value = { RowValue };

    ghost view = { λ r. record { places = r.places.items; room = vec_capacity r.places - vec_len r.places } };

    ghost invariant = { λ r. IsRising r.places.items };
}

impl<A: Allocator> Row<A> {
    /// No places. It takes no memory.
    pub(crate) fn new(alloc: A) -> Row<A>
        ensures { result ≡ record { places = []; room = 0 } }
    {
        Row {
            places: Vec::new(alloc),
        }
    }

    /// Makes room for one more place. It is out of memory only where there was none, and then
    /// changes nothing.
    pub(crate) fn ready(&mut self) -> Result<(), AllocError>
        ensures places { self.new.places ≡ self.old.places }
        ensures room { self.old.room ≤ self.new.room }
        ensures ok { OnOk result (0 < self.new.room) }
        ensures err { OnErr result (self.new ≡ self.old) }
        ensures full { OnErr result (self.old.room ≡ 0) }
    {
        self.places.reserve(1)
    }

    /// Puts a place behind the others. It takes no memory.
    pub(crate) fn push(&mut self, place: u32)
        requires room { 0 < self.old.room }
        requires above { AreBelow place self.old.places }
        ensures places { self.new.places ≡ self.old.places ++ place ∷ [] }
        ensures room { self.new.room + 1 ≡ self.old.room }
    {
        self.places.push_reserved(place);
    }

    /// Takes a place out, if it is there. It takes no memory.
    pub(crate) fn take(&mut self, place: u32)
        ensures places { self.new.places ≡ without place self.old.places }
        ensures room { self.new.room + length self.new.places ≡ self.old.room + length self.old.places }
    {
        if let Ok(at) = self.places.binary_search(&place) {
            self.places.remove(at);
        }
    }

    /// The places.
    pub(crate) fn places(&self) -> &[u32]
        ensures places { result.now ≡ self.now.places }
        ensures rising { IsRising result.now }
    {
        self.places.as_slice()
    }

    /// The places above one.
    pub(crate) fn after(&self, place: u32) -> &[u32]
        ensures places { result.now ≡ above place self.now.places }
        ensures rising { IsRising result.now }
    {
        match self.places.binary_search(&place) {
            Ok(at) => &self.places[at + 1..],
            Err(at) => &self.places[at..],
        }
    }
}
