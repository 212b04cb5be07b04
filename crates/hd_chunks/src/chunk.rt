//! One chunk of a list.
ghost use Rattle.std.specs.Prelude.{◌≡◌, ◌≢◌, ◌+◌, ◌<◌, ◌≤◌, ◌^◌, ◌++◌, ◌∷◌, ◌↔◌, [], All, IsTrue, false};
ghost use Rattle.std.specs.Prelude.{insert, length, remove};
ghost use Rattle.hd_blocks.specs.Blocks.{all_items};

use crate::marks::{Marking, Marks};
use std::alloc::{AllocError, Allocator, Global};
use std::marker::{Model, PhantomData};

/// How many items a chunk has room for.
pub(crate) const CHUNK: usize = 128;

/// At most how many items a chunk has that has few: a quarter of what it has room for.
const FEW: usize = 32;

/// The room of a chunk, without items.
#[derive(Drop)]
pub(crate) struct Spare<T, A: Allocator = Global> {
    room: Vec<T, A>,
}

impl<T, A: Allocator> Model for Spare<T, A> {
    ghost use Rattle.std.specs.Prelude.{◌≡◌, ◌≤◌, [], List, vec_capacity};
    ghost use Rattle.hd_chunks.specs.declared.chunk.TheConstants.{CHUNK};

    ghost Value = { List T };

    ghost view = { λ spare. spare.room.items };

    ghost invariant = { λ spare. (spare.room.items ≡ []) × (CHUNK ≤ vec_capacity spare.room) };
}

impl<T, A: Allocator> Spare<T, A> {
    /// The room of a chunk.
    pub(crate) fn new(alloc: A) -> Result<Spare<T, A>, AllocError> {
        Ok(Spare {
            room: Vec::with_capacity(alloc, CHUNK)?,
        })
    }
}

/// Some items of a list that stand together, with room for as many as a chunk has. Its calls take no memory.
#[derive(Drop)]
pub struct Chunk<T, M: Marking<T>, A: Allocator = Global> {
    items: Vec<T, A>,
    /// Which marks the items may have. That of an item that was taken out stays.
    marks: Marks,
    marking: PhantomData<M>,
}

impl<T, M: Marking<T>, A: Allocator> Model for Chunk<T, M, A> {
    ghost use Rattle.std.specs.Prelude.{◌≤◌, List, vec_capacity};
    ghost use Rattle.hd_chunks.specs.Marks.{AreNoted};
    ghost use Rattle.hd_chunks.specs.declared.chunk.TheConstants.{CHUNK};

    ghost Value = { List T };

    ghost view = { λ chunk. chunk.items.items };

    ghost invariant = { λ chunk. (CHUNK ≤ vec_capacity chunk.items)
        × AreNoted M.mark chunk.marks chunk.items.items };
}

impl<T, M: Marking<T>, A: Allocator> Chunk<T, M, A> {
    /// A chunk of one item, in this room.
    pub(crate) fn begin(spare: Spare<T, A>, item: T) -> Chunk<T, M, A>
        ensures { result ≡ item ∷ [] }
    {
        let Spare { room: mut items } = spare;
        let mut marks = Marks::new();
        marks.note(M::mark(&item));
        items.push_reserved(item);
        Chunk {
            items,
            marks,
            marking: PhantomData,
        }
    }

    /// The items, lent.
    pub fn items(&self) -> &[T]
        ensures { result.now ≡ self.now }
    {
        self.items.as_slice()
    }

    /// How many items there are.
    pub fn len(&self) -> usize
        ensures { result ≡ length self.now }
    {
        self.items.len()
    }

    /// Whether an item may have this mark. Where it says no, none has it.
    pub fn may_have(&self, mark: usize) -> bool
        ensures { result ≡ false → All (λ x. M.mark x ≢ mark) self.now }
    {
        self.marks.may_have(mark)
    }

    /// Whether there is room for one more.
    pub(crate) fn has_room(&self) -> bool
        ensures { IsTrue result ↔ length self.now < CHUNK }
    {
        self.len() < CHUNK
    }

    /// Whether it has few items, so that it may be joined with another that has few.
    pub(crate) fn has_few(&self) -> bool
        ensures { IsTrue result ↔ length self.now ≤ FEW }
    {
        self.len() <= FEW
    }

    /// Puts an item at this place of the chunk, which has room.
    pub(crate) fn insert(&mut self, at: usize, item: T)
        requires at { at ≤ length self.old }
        requires room { length self.old < CHUNK }
        ensures { self.new ≡ insert self.old at item }
    {
        self.marks.note(M::mark(&item));
        self.items.insert(at, item).unwrap();
    }

    /// Puts an item at this place of the chunk, before another, for which the last one makes way.
    pub(crate) fn insert_for_last(&mut self, at: usize, item: T) -> T
        requires { at < length self.old }
        ensures { self.new ++ result ∷ [] ≡ insert self.old at item }
    {
        self.marks.note(M::mark(&item));
        let last = self.items.pop().unwrap();
        self.items.insert(at, item).unwrap();
        last
    }

    /// Puts the items of another chunk behind its own. There must be room.
    pub(crate) fn append(&mut self, mut other: Chunk<T, M, A>)
    where
        T: Drop,
        requires { length self.old + length other ≤ CHUNK }
        ensures { self.new ≡ self.old ++ other }
    {
        self.marks.note_all(&other.marks);
        self.items.append(&mut other.items).unwrap();
    }

    /// Takes the item out that stands at this place of the chunk.
    pub(crate) fn remove(&mut self, at: usize)
    where
        T: Drop,
        requires { at < length self.old }
        ensures { self.new ≡ remove self.old at }
    {
        let _ = self.items.remove(at);
    }
}

/// How many items the chunks have in all.
#[tactic(auto, using(crate::proofs::ChunkLemmas::passed_one_more, crate::proofs::ChunkLemmas::passed_within))]
pub(crate) fn items_in<T, M: Marking<T>, A: Allocator>(chunks: &[Chunk<T, M, A>]) -> usize
    requires { length (all_items chunks.now) < 2 ^ 64 }
    ensures { result ≡ length (all_items chunks.now) }
{
    let mut count = 0;
    for chunk in chunks {
        count += chunk.len();
    }
    count
}
