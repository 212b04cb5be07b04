//! The chunks of a list.
ghost use Rattle.std.specs.Prelude.{◌≡◌, ◌+◌, ◌<◌, ◌≤◌, ◌↔◌, [], All, IsTrue, OnOk};
ghost use Rattle.std.specs.Prelude.{insert, length, max, remove};
ghost use Rattle.hd_blocks.specs.Blocks.{all_items};
ghost use Rattle.hd_chunks.specs.Chunks.{chunk_at, has_some, items_passed};

use crate::chunk::{Chunk, Spare};
use crate::marks::Marking;
use std::alloc::{AllocError, Allocator, Global};
use std::marker::Model;

/// Items in chunks, of which none is empty, and spare ones.
#[derive(Drop)]
pub(crate) struct Chunks<T, M: Marking<T>, A: Allocator = Global> {
    chunks: Vec<Chunk<T, M, A>, A>,
    /// Room for more chunks, of which the vector has place for each.
    spare: Vec<Spare<T, A>, A>,
}

impl<T, M: Marking<T>, A: Allocator> Model for Chunks<T, M, A> {
    ghost use Rattle.std.specs.Prelude.{◌+◌, ◌≤◌, All, length, vec_capacity};
    ghost use Rattle.hd_chunks.specs.Chunks.{ChunksValue, has_some};

    ghost Value = { ChunksValue T };

    ghost view = { λ p. record { chunks = p.chunks.items; spare = length p.spare.items } };

    ghost invariant = { λ p. All has_some p.chunks.items
        × (length p.chunks.items + length p.spare.items ≤ vec_capacity p.chunks) };
}

impl<T, M: Marking<T>, A: Allocator + Copy> Chunks<T, M, A> {
    /// No chunks. They take no memory.
    pub(crate) fn new(alloc: A) -> Chunks<T, M, A>
        ensures chunks { result.chunks ≡ [] }
        ensures spare { result.spare ≡ 0 }
    {
        Chunks {
            chunks: Vec::new(alloc),
            spare: Vec::new(alloc),
        }
    }

    /// Makes spare chunks until there are that many. Out of memory, the chunks stay.
    pub(crate) fn ready(&mut self, spare: usize) -> Result<(), AllocError>
        ensures chunks { self.new.chunks ≡ self.old.chunks }
        ensures ok { OnOk result (spare ≤ self.new.spare) }
        ensures spare { self.old.spare ≤ self.new.spare }
    {
        self.chunks.reserve(spare)?;
        make_spare(&mut self.spare, spare)
    }
}

impl<T, M: Marking<T>, A: Allocator> Chunks<T, M, A> {
    /// Puts an item into this chunk, at this place of it. It takes no memory, but may take a spare chunk.
    pub(crate) fn insert(&mut self, number: usize, offset: usize, item: T)
        requires there { number < length self.old.chunks }
        requires within { offset ≤ length (chunk_at self.old.chunks number) }
        requires spare { 0 < self.old.spare }
        ensures items { all_items self.new.chunks
            ≡ insert (all_items self.old.chunks) (items_passed self.old.chunks number + offset) item }
        ensures spare { self.old.spare ≤ self.new.spare + 1 }
    {
        let chunk = &mut self.chunks[number];
        if chunk.has_room() {
            chunk.insert(offset, item);
        } else if offset < chunk.len() {
            let last = chunk.insert_for_last(offset, item);
            self.insert_before(number + 1, last);
        } else {
            self.insert_before(number + 1, item);
        }
    }

    /// Puts an item before those of this chunk, or behind all where there is no such chunk.
    pub(crate) fn insert_before(&mut self, number: usize, item: T)
        requires number { number ≤ length self.old.chunks }
        requires spare { 0 < self.old.spare }
        ensures items { all_items self.new.chunks
            ≡ insert (all_items self.old.chunks) (items_passed self.old.chunks number) item }
        ensures spare { self.old.spare ≤ self.new.spare + 1 }
    {
        if number < self.chunks.len() && self.chunks[number].has_room() {
            self.chunks[number].insert(0, item);
            return;
        }
        let spare = self.spare.pop().unwrap();
        self.chunks
            .insert(number, Chunk::begin(spare, item))
            .unwrap();
    }

    /// Takes the item out that stands at this place of this chunk. It takes no memory.
    pub(crate) fn remove(&mut self, number: usize, offset: usize)
    where
        T: Drop,
        requires { offset < length (chunk_at self.old.chunks number) }
        ensures items { all_items self.new.chunks
            ≡ remove (all_items self.old.chunks) (items_passed self.old.chunks number + offset) }
        ensures spare { self.old.spare ≤ self.new.spare }
    {
        if self.chunks[number].len() == 1 {
            let _ = self.chunks.remove(number);
        } else {
            self.chunks[number].remove(offset);
            self.join_around(number);
        }
    }

    /// Joins this chunk with the next one, and the one before it with what comes of it, where they have few
    /// items.
    fn join_around(&mut self, number: usize)
    where
        T: Drop,
        requires { number < length self.old.chunks }
        ensures items { all_items self.new.chunks ≡ all_items self.old.chunks }
        ensures spare { self.new.spare ≡ self.old.spare }
    {
        self.join(number);
        if number > 0 {
            self.join(number - 1);
        }
    }

    /// Joins this chunk with the next one where both have few items, so that a list that gets shorter has
    /// fewer chunks. The items stay, and it takes no memory.
    fn join(&mut self, number: usize)
    where
        T: Drop,
        requires { number < length self.old.chunks }
        ensures items { all_items self.new.chunks ≡ all_items self.old.chunks }
        ensures chunks { number < length self.new.chunks }
        ensures spare { self.new.spare ≡ self.old.spare }
    {
        let len = self.chunks.len();
        let next = number + 1;
        if next < len && self.chunks[number].has_few() && self.chunks[next].has_few() {
            let chunk = self.chunks.remove(next);
            self.chunks[number].append(chunk);
        }
    }

    /// Whether there is no chunk.
    pub(crate) fn is_empty(&self) -> bool
        ensures { IsTrue result ↔ self.now.chunks ≡ [] }
    {
        self.chunks.is_empty()
    }

    /// The chunks, lent. None is empty.
    pub(crate) fn lend(&self) -> &[Chunk<T, M, A>]
        ensures chunks { result.now ≡ self.now.chunks }
        ensures some { All has_some result.now }
    {
        self.chunks.as_slice()
    }
}

/// Makes spare chunks until there are that many. Out of memory, those that it made stay.
fn make_spare<T, A: Allocator + Copy>(
    spare: &mut Vec<Spare<T, A>, A>,
    count: usize,
) -> Result<(), AllocError>
    ensures ok { OnOk result (count ≤ length spare.new.items) }
    ensures kept { length spare.old.items ≤ length spare.new.items }
    ensures most { length spare.new.items ≤ max (length spare.old.items) count }
{
    let alloc = *spare.allocator();
    while spare.len() < count {
        spare.reserve(1)?;
        spare.push_reserved(Spare::new(alloc)?);
    }
    Ok(())
}
