//! One block of a list.
ghost use Rattle.std.specs.Prelude.{◌≡◌, ◌<◌, ◌++◌, ◌∷◌, [], IfOk, length, slice_get};
ghost use Rattle.std.specs.Option.{option_copied};

use std::alloc::{AllocError, Allocator, Global};
use std::marker::Model;

/// How many items a block has room for.
pub(crate) const BLOCK: usize = 1024;

/// Items, with room for as many as a block holds. The room is made once, so an item stays where it was put.
#[derive(Drop)]
pub(crate) struct Block<T, A: Allocator = Global> {
    items: Vec<T, A>,
}

impl<T, A: Allocator> Model for Block<T, A> {
    ghost use Rattle.std.specs.Prelude.{◌≡◌, List, vec_capacity};
    ghost use Rattle.hd_blocks.specs.declared.block.TheConstants.{BLOCK};

    ghost Value = { List T };

    ghost view = { λ block. block.items.items };

    ghost invariant = { λ block. vec_capacity block.items ≡ BLOCK };
}

impl<T, A: Allocator> Block<T, A> {
    /// No items, and room for a block's.
    pub(crate) fn new(alloc: A) -> Result<Block<T, A>, AllocError>
        ensures { IfOk result (λ block. block ≡ []) }
    {
        Ok(Block {
            items: Vec::with_capacity(alloc, BLOCK)?,
        })
    }

    /// Puts an item behind the others. It takes no memory.
    pub(crate) fn push(&mut self, item: T)
        requires { length self.old < BLOCK }
        ensures { self.new ≡ self.old ++ item ∷ [] }
    {
        self.items.push_reserved(item);
    }

    /// The item at a place of the block, from 0, or `None` where there is none.
    pub(crate) fn get(&self, place: usize) -> Option<&T>
        ensures { option_copied result ≡ slice_get self.now place }
    {
        self.items.get(place)
    }
}
