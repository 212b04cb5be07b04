//! Loans by copy, and by patron.
ghost use Rattle.std.specs.Prelude.{◌≡◌, ◌<◌, None, IfOk, length};
ghost use Rattle.std.specs.FinMap as map;
ghost use Rattle.hd_loans.specs.Counts.{loans_of, AreBelow, with_renewal, IsRenewable};
ghost use Rattle.hd_loans.specs.Lent.{lent_to};

use crate::lent::LentCopies;
use crate::linked::LinkedLoans;
use hd_rules::{CopyNo, Day, Loan, PatronNo};
use std::alloc::{AllocError, Allocator, Global};
use std::marker::Model;

/// The loans of a desk by copy, with the number and the list of each patron's.
///
/// All its room is made by `new`. No other call takes memory.
#[derive(Drop)]
pub struct Loans<A: Allocator = Global> {
    linked: LinkedLoans<A>,
    counts: Vec<u32, A>,
}

impl<A: Allocator> Model for Loans<A> {
    ghost use Rattle.hd_loans.specs.LoansValue.{LoansValue, loans_code};
    ghost use Rattle.hd_loans.specs.Counts.{AreCounted};

    ghost Value = { LoansValue };

    ghost coded = { loans_code };

    ghost view = { λ l. l.linked };

    ghost invariant = { λ l. AreCounted l.linked l.counts.items };
}

impl<A: Allocator + Copy> Loans<A> {
    /// No loans, with room for the copies and the patrons below these numbers.
    ///
    /// Answers `AllocError` where there is no memory for them.
    pub fn new(alloc: A, copies: u32, patrons: u32) -> Result<Loans<A>, AllocError>
        ensures loans { IfOk result (λ made. made.loans ≡ map.empty) }
        ensures copies { IfOk result (λ made. made.copies ≡ copies) }
        ensures patrons { IfOk result (λ made. made.patrons ≡ patrons) }
    {
        let linked = LinkedLoans::new(alloc, copies, patrons)?;
        let counts = vec![in alloc; 0; patrons as usize]?;
        Ok(Loans { linked, counts })
    }
}

impl<A: Allocator> Loans<A> {
    /// Lends a copy (docs/desk-rules.md, "Checkout").
    pub fn lend(&mut self, copy: CopyNo, loan: Loan)
        requires free { map.get self.old.loans copy ≡ None }
        requires copy { copy < self.old.copies }
        requires patron { loan.patron < self.old.patrons }
        ensures loans { self.new.loans ≡ map.insert self.old.loans copy loan }
        ensures copies { self.new.copies ≡ self.old.copies }
        ensures patrons { self.new.patrons ≡ self.old.patrons }
    {
        let patron = loan.patron.number() as usize;
        self.linked.lend(copy, loan);
        self.counts[patron] += 1;
    }

    /// Ends the loan of a copy and hands it out, if there is one.
    pub fn end(&mut self, copy: CopyNo) -> Option<Loan>
        ensures ended { result ≡ map.get self.old.loans copy }
        ensures loans { self.new.loans ≡ map.remove self.old.loans copy }
        ensures copies { self.new.copies ≡ self.old.copies }
        ensures patrons { self.new.patrons ≡ self.old.patrons }
    {
        let loan = self.linked.end(copy)?;
        self.counts[loan.patron.number() as usize] -= 1;
        Some(loan)
    }

    /// Gives the loan of a copy a new due day, and counts the renewal (docs/desk-rules.md, "Renew").
    pub fn renew(&mut self, copy: CopyNo, due: Day)
        requires lent { IsRenewable (map.get self.old.loans copy) }
        ensures loans { self.new.loans ≡ with_renewal self.old.loans copy due }
        ensures copies { self.new.copies ≡ self.old.copies }
        ensures patrons { self.new.patrons ≡ self.old.patrons }
    {
        self.linked.renew(copy, due);
    }

    /// How many loans a patron has.
    pub fn count(&self, patron: PatronNo) -> u32
        ensures value { result ≡ loans_of self.now.loans self.now.copies patron }
        ensures within { AreBelow self.now.loans self.now.copies self.now.patrons }
    {
        let at = patron.number() as usize;
        if at < self.counts.len() {
            self.counts[at]
        } else {
            0
        }
    }

    /// The copies that a patron has on loan, each once, by rising number.
    pub fn of(&self, patron: PatronNo) -> LentCopies<'_, A>
        ensures copies { result ≡ lent_to self.now.loans self.now.copies patron }
        ensures count { length result ≡ loans_of self.now.loans self.now.copies patron }
    {
        LentCopies::new(&self.linked, patron)
    }
}
