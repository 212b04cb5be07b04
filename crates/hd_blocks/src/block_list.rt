//! A list in blocks.
ghost use Rattle.std.specs.Prelude.{◌≡◌, ◌+◌, ◌<◌, ◌≤◌, ◌^◌, ◌++◌, ◌∷◌, ◌↔◌, [], IsTrue, OnErr, OnOk};
ghost use Rattle.std.specs.Prelude.{length, slice_get};
ghost use Rattle.std.specs.Option.{option_copied};

use crate::block::{BLOCK, Block};
use std::alloc::{AllocError, Allocator, Global};
use std::marker::Model;

/// Items in the order in which they came, in blocks of 1,024 that never move: a list that grows copies none
/// of its items.
///
/// Only `ready` takes memory.
#[derive(Drop)]
pub struct BlockList<T, A: Allocator = Global> {
    blocks: Vec<Block<T, A>, A>,
    len: usize,
}

impl<T, A: Allocator> Model for BlockList<T, A> {
    ghost use Rattle.std.specs.Prelude.{◌*◌, length};
    ghost use Rattle.hd_blocks.specs.declared.block.TheConstants.{BLOCK};
    ghost use Rattle.hd_blocks.specs.Blocks.{AreBlocks, all_items};
    ghost use Rattle.hd_blocks.specs.BlockListValue.{BlockListValue};

    ghost Value = { BlockListValue T };

    ghost view = { λ list. record {
      items = all_items list.blocks.items;
      room = BLOCK * length list.blocks.items;
    } };

    ghost invariant = { λ list. AreBlocks BLOCK list.len list.blocks.items };
}

impl<T, A: Allocator + Copy> BlockList<T, A> {
    /// No items. It takes no memory.
    pub fn new(alloc: A) -> BlockList<T, A>
        ensures items { result.items ≡ [] }
        ensures room { result.room ≡ 0 }
    {
        BlockList {
            blocks: Vec::new(alloc),
            len: 0,
        }
    }

    /// Makes room for one more item. Where there is room, nothing changes.
    ///
    /// # Errors
    /// Where the allocator refuses the room of a block, or no `usize` could count the items of one block
    /// more. Nothing is changed then.
    pub fn ready(&mut self) -> Result<(), AllocError>
        ensures items { self.new.items ≡ self.old.items }
        ensures room { OnOk result (length self.new.items < self.new.room) }
        ensures kept { length self.old.items < self.old.room → self.new ≡ self.old }
        ensures number { OnOk result (length self.new.items + 1 < 2 ^ 64) }
        ensures err { OnErr result (self.new ≡ self.old) }
        ensures full { OnErr result (self.old.room ≤ length self.old.items) }
    {
        let room = self.blocks.len() * BLOCK;
        if self.len < room {
            return Ok(());
        }
        if is_last(room) {
            return Err(AllocError);
        }
        let alloc = *self.blocks.allocator();
        self.blocks.reserve(1)?;
        let block = Block::new(alloc)?;
        self.blocks.push_reserved(block);
        Ok(())
    }
}

impl<T, A: Allocator> BlockList<T, A> {
    /// How many items there are.
    pub fn len(&self) -> usize
        ensures { result ≡ length self.now.items }
    {
        self.len
    }

    /// Puts an item behind the others. There must be room. It takes no memory.
    pub fn push(&mut self, item: T)
        requires { length self.old.items < self.old.room }
        ensures items { self.new.items ≡ self.old.items ++ item ∷ [] }
        ensures room { self.new.room ≡ self.old.room }
    {
        let number = self.len / BLOCK;
        self.blocks[number].push(item);
        self.len += 1;
    }

    /// The item at a place, from 0, or `None` where there is none.
    pub fn get(&self, place: usize) -> Option<&T>
        ensures { option_copied result ≡ slice_get self.now.items place }
    {
        let block = self.blocks.get(place / BLOCK)?;
        block.get(place % BLOCK)
    }
}

/// Whether a list with so much room is as long as one can be: no `usize` could count the items of one block
/// more.
fn is_last(room: usize) -> bool
    ensures { IsTrue result ↔ 2 ^ 64 ≤ room + BLOCK }
{
    usize::MAX - room < BLOCK
}
