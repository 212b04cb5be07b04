//! A table from numbers to values.
ghost use Rattle.std.specs.Prelude.{◌≡◌, ◌<◌, ◌≤◌, ℕ, max, None, OnOk, OnErr};
ghost use Rattle.std.specs.Option.{option_copied};
ghost use Rattle.std.specs.FinMap as map;

use std::alloc::{AllocError, Allocator, Global};
use std::marker::Model;

/// Values by number. Each number below the table's size has room for one value.
///
/// Only `grow` takes memory.
#[derive(Drop)]
pub struct Table<T, A: Allocator = Global> {
    slots: Vec<Option<T>, A>,
}

impl<T, A: Allocator> Model for Table<T, A> {
    ghost use Rattle.std.specs.Prelude.{vec_len};
    ghost use Rattle.hd_table.specs.TableValue.{TableValue, table_code};
    ghost use Rattle.hd_table.specs.Slots.{map_of};

    ghost Value = { TableValue T };

    ghost coded = { table_code T.code };

    ghost view = { λ table. record { entries = map_of table.slots.items; size = vec_len table.slots } };
}

impl<T: Drop, A: Allocator> Table<T, A> {
    /// A table without values, of size 0.
    pub fn new(alloc: A) -> Table<T, A>
        ensures entries { result.entries ≡ map.empty }
        ensures size { result.size ≡ 0 }
    {
        Table {
            slots: Vec::new(alloc),
        }
    }

    /// The numbers below it have room, and no other has a value.
    pub fn size(&self) -> usize
        ensures value { result ≡ self.now.size }
        ensures within { (at : ℕ) → self.now.size ≤ at → map.get self.now.entries at ≡ None }
    {
        self.slots.len()
    }

    /// Makes room for the numbers below `size`. A table of that size or a greater one stays as it is.
    ///
    /// Answers `AllocError` where there is no memory for it, and then the table is unchanged.
    pub fn grow(&mut self, size: usize) -> Result<(), AllocError>
        ensures entries { self.new.entries ≡ self.old.entries }
        ensures ok { OnOk result (self.new.size ≡ max self.old.size size) }
        ensures err { OnErr result (self.new.size ≡ self.old.size) }
        ensures full { OnErr result (self.old.size < size) }
    {
        let more = size.saturating_sub(self.slots.len());
        self.slots.reserve(more)?;
        for _ in 0..more {
            self.slots.push_reserved(None);
        }
        Ok(())
    }

    /// The value of a number, if it has one.
    pub fn get(&self, at: usize) -> Option<&T>
        ensures { option_copied result ≡ map.get self.now.entries at }
    {
        self.slots.get(at)?.as_ref()
    }

    /// Gives a number this value, in place of the one that it had.
    pub fn set(&mut self, at: usize, value: T)
        requires { at < self.old.size }
        ensures entries { self.new.entries ≡ map.insert self.old.entries at value }
        ensures size { self.new.size ≡ self.old.size }
    {
        self.slots[at] = Some(value);
    }

    /// Takes the value of a number away, if it has one.
    pub fn take(&mut self, at: usize) -> Option<T>
        ensures taken { result ≡ map.get self.old.entries at }
        ensures entries { self.new.entries ≡ map.remove self.old.entries at }
        ensures size { self.new.size ≡ self.old.size }
    {
        if at < self.slots.len() {
            self.slots[at].take()
        } else {
            None
        }
    }
}
