//! A list in chunks.
ghost use Rattle.std.specs.Prelude.{◌≡◌, ◌+◌, ◌<◌, ◌≤◌, ◌^◌, ◌∷◌, [], All, OnErr, OnOk};
ghost use Rattle.std.specs.Prelude.{insert, length, remove, slice_get};
ghost use Rattle.std.specs.Option.{option_copied};
ghost use Rattle.hd_chunks.specs.Chunks.{HasItem, IsIn, chunk_at, has_some, items_before, items_of};

use crate::chunk::{CHUNK, Chunk, items_in};
use crate::chunks::Chunks;
use crate::marks::Marking;
use crate::place::Place;
use std::alloc::{AllocError, Allocator, Global};
use std::marker::Model;

/// The most items that a list has, together with its room.
const MOST: usize = usize::MAX / 2;

/// Items in order, in chunks of up to 128: to put an item at a place, or to take it out, moves those of its
/// own chunk alone, however long the list is. Places are found by halving over `parts`, and a walk for the
/// items of one mark may pass over chunks (`Chunk::may_have`).
///
/// The first chunk has only as much room as it needs, so that a short list is as small as one can be. Only
/// `ready` takes memory.
#[derive(Drop)]
pub struct ChunkList<T, M: Marking<T>, A: Allocator = Global> {
    first: Vec<T, A>,
    others: Chunks<T, M, A>,
    len: usize,
    /// For how many more items there is room: in the first chunk, while there is no other, or a spare chunk
    /// for each.
    room: usize,
}

impl<T, M: Marking<T>, A: Allocator> Model for ChunkList<T, M, A> {
    ghost use Rattle.std.specs.Prelude.{◌∷◌, length, vec_capacity};
    ghost use Rattle.hd_blocks.specs.Blocks.{all_items};
    ghost use Rattle.hd_chunks.specs.Chunks.{HasRoom, IsCounted, ChunkListValue};

    ghost Value = { ChunkListValue T };

    ghost view = { λ l. record { chunks = l.first.items ∷ l.others.chunks; room = l.room } };

    ghost invariant = { λ l. HasRoom (length l.first.items) (vec_capacity l.first) l.others l.room
        × IsCounted l.len l.room (all_items (l.first.items ∷ l.others.chunks)) };
}

impl<T, M: Marking<T>, A: Allocator + Copy> ChunkList<T, M, A> {
    /// No items. It takes no memory.
    pub fn new(alloc: A) -> ChunkList<T, M, A>
        ensures chunks { result.chunks ≡ [] ∷ [] }
        ensures room { result.room ≡ 0 }
    {
        ChunkList {
            first: Vec::new(alloc),
            others: Chunks::new(alloc),
            len: 0,
            room: 0,
        }
    }

    /// Makes room for that many more items. Where there is as much, nothing changes.
    ///
    /// # Errors
    /// Out of memory, or the list would have 2^63 items. The items and the room stay.
    pub fn ready(&mut self, more: usize) -> Result<(), AllocError>
        ensures chunks { self.new.chunks ≡ self.old.chunks }
        ensures ok { OnOk result (more ≤ self.new.room) }
        ensures err { OnErr result (self.new ≡ self.old) }
        ensures full { OnErr result (self.old.room < more) }
        ensures room { self.old.room ≤ self.new.room }
        ensures kept { more ≤ self.old.room → self.new ≡ self.old }
    {
        if more <= self.room {
            return Ok(());
        }
        if more > MOST - self.len {
            return Err(AllocError);
        }
        if self.others.is_empty() && more <= CHUNK && self.first.len() <= CHUNK - more {
            self.first.reserve(more)?;
        } else {
            self.others.ready(more)?;
        }
        self.room = more;
        Ok(())
    }
}

impl<T, M: Marking<T>, A: Allocator> ChunkList<T, M, A> {
    /// How many items there are.
    pub fn len(&self) -> usize
        ensures len { result ≡ length (items_of self.now) }
        ensures fits { result < 2 ^ 63 }
    {
        self.len
    }

    /// Puts an item at this place. There must be room.
    pub fn insert(&mut self, at: Place, item: T)
        requires at { IsIn self.old.chunks at }
        requires room { 0 < self.old.room }
        ensures items { items_of self.new
            ≡ insert (items_of self.old) (items_before self.old.chunks at) item }
        ensures room { self.old.room ≤ self.new.room + 1 }
    {
        let first = self.first.len();
        self.len += 1;
        self.room -= 1;
        if at.chunk > 0 {
            self.others.insert(at.chunk - 1, at.offset, item);
        } else if first < CHUNK && first < self.first.capacity() {
            self.first.insert(at.offset, item).unwrap();
        } else if at.offset < first {
            let last = self.first.pop().unwrap();
            self.first.insert(at.offset, item).unwrap();
            self.others.insert_before(0, last);
        } else {
            self.others.insert_before(0, item);
        }
    }

    /// Takes the item out that stands at this place.
    pub fn remove(&mut self, at: Place)
    where
        T: Drop,
        requires { HasItem self.old.chunks at }
        ensures items { items_of self.new ≡ remove (items_of self.old) (items_before self.old.chunks at) }
        ensures room { self.old.room ≤ self.new.room }
    {
        self.len -= 1;
        if at.chunk > 0 {
            self.others.remove(at.chunk - 1, at.offset);
        } else {
            let _ = self.first.remove(at.offset);
        }
    }

    /// The items of a chunk, lent: none where there is no such chunk.
    pub fn chunk(&self, number: usize) -> &[T]
        ensures { result.now ≡ chunk_at self.now.chunks number }
    {
        if number == 0 {
            return self.first.as_slice();
        }
        match self.others.lend().get(number - 1) {
            Some(chunk) => chunk.items(),
            None => &[],
        }
    }

    /// The item at this place, or `None` where there is none.
    pub fn get(&self, at: Place) -> Option<&T>
        ensures chunk { option_copied result ≡ slice_get (chunk_at self.now.chunks at.chunk) at.offset }
        ensures item { HasItem self.now.chunks at
            → option_copied result ≡ slice_get (items_of self.now) (items_before self.now.chunks at) }
    {
        item_at(self.chunk(at.chunk), at.offset)
    }

    /// How many items stand before this place. The chunks before its own are counted one after another.
    pub fn items_before(&self, at: Place) -> usize
        requires { IsIn self.now.chunks at }
        ensures count { result ≡ items_before self.now.chunks at }
        ensures fits { result < 2 ^ 63 }
    {
        if at.chunk > 0 {
            let (passed, _) = self.others.lend().split_at(at.chunk - 1);
            self.first.len() + items_in(passed) + at.offset
        } else {
            at.offset
        }
    }

    /// The items, lent: those of the first chunk, and the other chunks, of which none is empty.
    pub fn parts(&self) -> (&[T], &[Chunk<T, M, A>])
        ensures chunks { self.now.chunks ≡ result.0.now ∷ result.1.now }
        ensures some { All has_some result.1.now }
    {
        (self.first.as_slice(), self.others.lend())
    }
}

/// The item of a slice at this place, from 0, or `None` where there is none.
fn item_at<T>(items: &[T], offset: usize) -> Option<&T>
    ensures { option_copied result ≡ slice_get items.now offset }
{
    items.get(offset)
}
