//! A list of holds, lent.
ghost use Rattle.std.specs.Prelude.{◌≡◌, ◌≤◌, ◌++◌, All, filter, length};
ghost use Rattle.std.specs.Option.{option_copied};
ghost use Rattle.std.specs.Iterator.{YieldsFirstRef, item_count};
ghost use Rattle.hd_blocks.specs.Blocks.{all_items};
ghost use Rattle.hd_chunks.specs.Chunks.{has_some};
ghost use Rattle.hd_queue.specs.Holds.{hold_of};
ghost use Rattle.hd_queue.specs.Wanted.{is_picked_up_at};

use crate::pickup::ByPickup;
use hd_chunks::Chunk;
use hd_rules::{BranchNo, Hold, PatronNo};
use std::alloc::{Allocator, Global};
use std::marker::Model;

/// The holds of a list, lent, from first to last. They are kept in chunks, so they come slice by slice.
#[derive(Drop)]
pub struct HoldSlices<'a, A: Allocator = Global> {
    front: &'a [Hold],
    chunks: &'a [Chunk<Hold, ByPickup, A>],
}

impl<'a, A: Allocator> Model for HoldSlices<'a, A> {
    ghost use Rattle.std.specs.Prelude.{◌++◌, All, List};
    ghost use Rattle.hd_blocks.specs.Blocks.{all_items};
    ghost use Rattle.hd_chunks.specs.Chunks.{has_some};
    ghost use Rattle.hd_rules.specs.declared.holds.Hold.{Hold};

    ghost Value = { List Hold };

    ghost view = { λ s. s.front.now ++ all_items s.chunks.now };

    ghost invariant = { λ s. All has_some s.chunks.now };
}

impl<'a, A: Allocator> HoldSlices<'a, A> {
    /// The list of these holds, and then of those of the chunks.
    pub(crate) fn new(
        front: &'a [Hold],
        chunks: &'a [Chunk<Hold, ByPickup, A>],
    ) -> HoldSlices<'a, A>
        requires { All has_some chunks.now }
        ensures { result ≡ front.now ++ all_items chunks.now }
    {
        HoldSlices { front, chunks }
    }

    /// The same holds once more.
    pub(crate) fn again(&self) -> HoldSlices<'a, A>
        ensures { result ≡ self.now }
    {
        HoldSlices {
            front: self.front,
            chunks: self.chunks,
        }
    }

    /// Passes over the chunks to come, up to one that may have a hold of this pickup. Where a hold is before
    /// these chunks it changes nothing.
    pub(crate) fn pass_over(&mut self, pickup: BranchNo)
        ensures kept { filter (is_picked_up_at pickup) self.new ≡ filter (is_picked_up_at pickup) self.old }
        ensures shorter { length self.new ≤ length self.old }
    {
        if !self.front.is_empty() {
            return;
        }
        while let Some((chunk, others)) = self.chunks.split_first() {
            if chunk.may_have(ByPickup::mark_of(pickup)) {
                return;
            }
            self.chunks = others;
        }
    }

    /// A patron's hold, or `None` where there is none.
    pub(crate) fn hold_of(&self, patron: PatronNo) -> Option<&'a Hold>
        ensures { option_copied result ≡ hold_of self.now patron }
    {
        for hold in self.again() {
            if hold.patron == patron {
                return Some(hold);
            }
        }
        None
    }
}

impl<'a, A: Allocator> Iterator for HoldSlices<'a, A> {
    type Item = &'a Hold;

    ghost next_gives = { YieldsFirstRef (λ holds. holds) };

    ghost remaining = { item_count (λ holds. holds) };

    fn next(&mut self) -> Option<&'a Hold> {
        if let Some((first, others)) = self.front.split_first() {
            self.front = others;
            return Some(first);
        }
        let (chunk, chunks) = self.chunks.split_first()?;
        let (first, others) = chunk.items().split_first()?;
        self.front = others;
        self.chunks = chunks;
        Some(first)
    }
}
