//! Why a desk isn't carried over.
ghost use Rattle.std.specs.Prelude.{◌≡◌};
ghost use Rattle.hd_carry.specs.declared.fault.CarryFault.TheVariants.{Memory};

use crate::obstacle::Obstacle;
use std::alloc::{AllocError, Allocator, Global};

/// Why a desk isn't carried over.
#[derive(Drop)]
pub enum CarryFault<A: Allocator = Global> {
    /// Out of memory.
    Memory,
    /// Each obstacle, once.
    InTheWay(Vec<Obstacle, A>),
}

impl<A: Allocator> From<AllocError> for CarryFault<A> {
    ghost from_gives = { λ _ fault. fault ≡ Memory };

    fn from(_fault: AllocError) -> CarryFault<A> {
        CarryFault::Memory
    }
}
