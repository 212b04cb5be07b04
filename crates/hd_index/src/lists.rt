//! Rising lists of places by number.
ghost use Rattle.std.specs.Prelude.{◌≡◌, ◌≢◌, ◌+◌, ◌<◌, ◌≤◌, ℕ, [], ◌∷◌, ◌++◌, OnErr, OnOk, length};
ghost use Rattle.std.specs.Prelude.{vec_capacity, vec_len};
ghost use Rattle.hd_index.specs.Rising.{AreBelow, IsRising, above, without};
ghost use Rattle.hd_index.specs.Rows.{places_of, room_of, row_of};

use crate::row::Row;
use std::alloc::{AllocError, Allocator, Global};
use std::marker::Model;

/// For each number a rising list of places, as of the records that have something to do with it.
///
/// Only `ready` takes memory. A number that it was never called for has no places.
#[derive(Drop)]
pub struct Lists<A: Allocator = Global> {
    rows: Vec<Row<A>, A>,
}

impl<A: Allocator> Model for Lists<A> {
    ghost use Rattle.std.specs.Prelude.{List};
    ghost use Rattle.hd_index.specs.RowValue.{RowValue};

    ghost Value = { List RowValue };

    ghost view = { λ l. l.rows.items };
}

impl<A: Allocator + Copy> Lists<A> {
    /// No places. It takes no memory.
    pub fn new(alloc: A) -> Lists<A>
        ensures { result ≡ [] }
    {
        Lists {
            rows: Vec::new(alloc),
        }
    }

    /// Makes room for one more place at a number.
    ///
    /// It is out of memory only where there was no room at that number, and then changes nothing.
    pub fn ready(&mut self, number: usize) -> Result<(), AllocError>
        ensures places { (n : ℕ) → places_of n self.new ≡ places_of n self.old }
        ensures room { (n : ℕ) → room_of n self.old ≤ room_of n self.new }
        ensures ok { OnOk result (0 < room_of number self.new) }
        ensures err { OnErr result (self.new ≡ self.old) }
        ensures full { OnErr result (room_of number self.old ≡ 0) }
    {
        if number < self.rows.len() {
            self.rows[number].ready()
        } else {
            grow(&mut self.rows, number)
        }
    }
}

impl<A: Allocator> Lists<A> {
    /// Puts a place behind the others of a number. It takes no memory.
    ///
    /// There must be room, and the place must be above them.
    pub fn push(&mut self, number: usize, place: u32)
        requires room { 0 < room_of number self.old }
        requires above { AreBelow place (places_of number self.old) }
        ensures places { places_of number self.new ≡ places_of number self.old ++ place ∷ [] }
        ensures room { room_of number self.new + 1 ≡ room_of number self.old }
        ensures others { (n : ℕ) → n ≢ number → row_of n self.new ≡ row_of n self.old }
    {
        self.rows[number].push(place);
    }

    /// Takes a place of a number out, if it is there. It takes no memory.
    pub fn take(&mut self, number: usize, place: u32)
        ensures places { places_of number self.new ≡ without place (places_of number self.old) }
        ensures room { room_of number self.new + length (places_of number self.new)
            ≡ room_of number self.old + length (places_of number self.old) }
        ensures others { (n : ℕ) → n ≢ number → row_of n self.new ≡ row_of n self.old }
    {
        if number < self.rows.len() {
            self.rows[number].take(place);
        }
    }

    /// The places of a number.
    pub fn of(&self, number: usize) -> &[u32]
        ensures places { result.now ≡ places_of number self.now }
        ensures rising { IsRising result.now }
    {
        match self.rows.get(number) {
            Some(row) => row.places(),
            None => &[],
        }
    }

    /// The places of a number above one.
    pub fn after(&self, number: usize, place: u32) -> &[u32]
        ensures places { result.now ≡ above place (places_of number self.now) }
        ensures rising { IsRising result.now }
    {
        match self.rows.get(number) {
            Some(row) => row.after(place),
            None => &[],
        }
    }
}

/// Puts a row with room behind the others, with as many rows without places before it as its number wants.
fn grow<A: Allocator + Copy>(rows: &mut Vec<Row<A>, A>, number: usize) -> Result<(), AllocError>
    requires { length rows.old.items ≤ number }
    ensures others { (n : ℕ) → n ≢ number → row_of n rows.new.items ≡ row_of n rows.old.items }
    ensures places { places_of number rows.new.items ≡ [] }
    ensures ok { OnOk result (0 < room_of number rows.new.items) }
    ensures err { OnErr result (rows.new.items ≡ rows.old.items) }
{
    let alloc = *rows.allocator();
    let mut last = Row::new(alloc);
    last.ready()?;
    let more = number - rows.len();
    rows.reserve(more.checked_add(1).ok_or(AllocError)?)?;
    fill(rows, alloc, more);
    rows.push_reserved(last);
    Ok(())
}

/// Puts that many rows without places behind the others. There must be room for them.
fn fill<A: Allocator + Copy>(rows: &mut Vec<Row<A>, A>, alloc: A, more: usize)
    requires { vec_len rows.old + more ≤ vec_capacity rows.old }
    ensures rows { (n : ℕ) → row_of n rows.new.items ≡ row_of n rows.old.items }
    ensures len { vec_len rows.new ≡ vec_len rows.old + more }
    ensures capacity { vec_capacity rows.new ≡ vec_capacity rows.old }
{
    for _ in 0..more {
        rows.push_reserved(Row::new(alloc));
    }
}
