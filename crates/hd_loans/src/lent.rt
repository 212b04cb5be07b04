//! Going over the copies that a patron has on loan.
ghost use Rattle.std.specs.Prelude.{◌≡◌};
ghost use Rattle.std.specs.Iterator.{YieldsFirst, item_count};
ghost use Rattle.hd_loans.specs.Lent.{lent_to};

use crate::link::Link;
use crate::linked::LinkedLoans;
use hd_rules::{CopyNo, PatronNo};
use std::alloc::{Allocator, Global};
use std::marker::Model;

/// The copies that a patron has on loan, by rising number. It takes no memory.
#[derive(Drop)]
pub struct LentCopies<'a, A: Allocator = Global> {
    loans: &'a LinkedLoans<A>,
    /// Who has them. Only what contracts see of the list reads it.
    patron: PatronNo,
    next: Link,
}

impl<'a, A: Allocator> Model for LentCopies<'a, A> {
    ghost use Rattle.std.specs.Prelude.{ℕ, List};
    ghost use Rattle.hd_loans.specs.Lent.{lent_from};
    ghost use Rattle.hd_loans.specs.Links.{IsOnList};

    ghost Value = { List ℕ };

    ghost view = { λ c. lent_from c.loans.now.loans c.loans.now.copies c.patron c.next };

    ghost invariant = { λ c. IsOnList c.loans.now.loans c.loans.now.copies c.loans.now.patrons c.patron
        c.next };
}

impl<'a, A: Allocator> LentCopies<'a, A> {
    /// All the copies that the patron has on loan.
    pub(crate) fn new(loans: &'a LinkedLoans<A>, patron: PatronNo) -> LentCopies<'a, A>
        ensures { result ≡ lent_to loans.now.loans loans.now.copies patron }
    {
        let next = loans.first_of(patron);
        LentCopies {
            loans,
            patron,
            next,
        }
    }
}

impl<'a, A: Allocator> Iterator for LentCopies<'a, A> {
    type Item = CopyNo;

    ghost next_gives = { YieldsFirst (λ copies. copies) };

    ghost remaining = { item_count (λ copies. copies) };

    fn next(&mut self) -> Option<CopyNo> {
        let copy = self.next.copy()?;
        self.next = self.loans.next_to(copy);
        Some(copy)
    }
}
