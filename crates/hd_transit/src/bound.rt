//! Going over the copies on their way to a branch.
ghost use Rattle.std.specs.Prelude.{◌≡◌};
ghost use Rattle.std.specs.Iterator.{item_count, YieldsFirst};
ghost use Rattle.hd_transit.specs.TransitsValue.{AreCopies};
ghost use Rattle.hd_transit.specs.Bound.{bound_from};

use hd_rules::{BranchNo, CopyNo, Transit};
use hd_table::Table;
use std::alloc::{Allocator, Global};
use std::marker::Model;

/// The copies on their way to a branch, by rising number. It takes no memory.
#[derive(Drop)]
pub struct Bound<'a, A: Allocator = Global> {
    table: &'a Table<Transit, A>,
    to: BranchNo,
    next: usize,
}

impl<'a, A: Allocator> Model for Bound<'a, A> {
    ghost use Rattle.std.specs.Prelude.{ℕ, List};
    ghost use Rattle.hd_transit.specs.TransitsValue.{AreCopies};
    ghost use Rattle.hd_transit.specs.Bound.{bound_from};

    ghost Value = { List ℕ };

    ghost view = { λ b. bound_from b.table.now.entries b.table.now.size b.to b.next };

    ghost invariant = { λ b. AreCopies b.table.now.entries b.table.now.size };
}

impl<'a, A: Allocator> Bound<'a, A> {
    /// All the copies of the table that are on their way to the branch.
    pub(crate) fn new(table: &'a Table<Transit, A>, to: BranchNo) -> Bound<'a, A>
        requires { AreCopies table.now.entries table.now.size }
        ensures { result ≡ bound_from table.now.entries table.now.size to 0 }
    {
        Bound { table, to, next: 0 }
    }
}

impl<'a, A: Allocator> Iterator for Bound<'a, A> {
    type Item = CopyNo;

    ghost next_gives = { YieldsFirst (λ copies. copies) };

    ghost remaining = { item_count (λ copies. copies) };

    fn next(&mut self) -> Option<CopyNo> {
        while self.next < self.table.size() {
            let copy = self.next;
            self.next += 1;
            if let Some(transit) = self.table.get(copy)
                && transit.to == self.to
            {
                return CopyNo::new(copy as u32);
            }
        }
        None
    }
}
