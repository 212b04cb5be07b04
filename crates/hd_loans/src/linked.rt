//! Loans by copy, linked by patron.
ghost use Rattle.std.specs.Prelude.{◌≡◌, ℕ, ◌+◌, ◌<◌, true, None, IfOk, IsSome};
ghost use Rattle.std.specs.FinMap as map;
ghost use Rattle.hd_loans.specs.Counts.{IsRenewable, with_renewal};
ghost use Rattle.hd_loans.specs.Lent.{is_lent_to};
ghost use Rattle.hd_loans.specs.Links.{AreKnown, IsLastBelow, LeadsOn};

use crate::link::Link;
use crate::links::Links;
use hd_rules::{CopyNo, Day, Loan, PatronNo};
use hd_table::Table;
use std::alloc::{AllocError, Allocator};
use std::marker::Model;

/// The loans of a desk by copy, with a list of each patron's copies, by rising number.
///
/// All its room is made by `new`. No other call takes memory.
#[derive(Drop)]
pub(crate) struct LinkedLoans<A: Allocator> {
    table: Table<Loan, A>,
    lists: Links<A>,
}

impl<A: Allocator> Model for LinkedLoans<A> {
    ghost use Rattle.std.specs.Prelude.{length};
    ghost use Rattle.hd_loans.specs.LoansValue.{LoansValue, loans_code};
    ghost use Rattle.hd_loans.specs.Links.{AreLinked};

    ghost Value = { LoansValue };

    ghost coded = { loans_code };

    ghost view = { λ l. record {
      loans = l.table.entries;
      copies = l.table.size;
      patrons = length l.lists.firsts;
    } };

    ghost invariant = { λ l. AreLinked l.table.entries l.table.size l.lists };
}

impl<A: Allocator + Copy> LinkedLoans<A> {
    /// No loans, with room for the copies and the patrons below these numbers.
    ///
    /// Answers `AllocError` where there is no memory for them.
    pub(crate) fn new(alloc: A, copies: u32, patrons: u32) -> Result<LinkedLoans<A>, AllocError>
        ensures loans { IfOk result (λ made. made.loans ≡ map.empty) }
        ensures copies { IfOk result (λ made. made.copies ≡ copies) }
        ensures patrons { IfOk result (λ made. made.patrons ≡ patrons) }
    {
        let mut table = Table::new(alloc);
        table.grow(copies as usize)?;
        let lists = Links::new(alloc, copies, patrons)?;
        Ok(LinkedLoans { table, lists })
    }
}

impl<A: Allocator> LinkedLoans<A> {
    /// Lends a copy.
    pub(crate) fn lend(&mut self, copy: CopyNo, loan: Loan)
        requires free { map.get self.old.loans copy ≡ None }
        requires copy { copy < self.old.copies }
        requires patron { loan.patron < self.old.patrons }
        ensures loans { self.new.loans ≡ map.insert self.old.loans copy loan }
        ensures copies { self.new.copies ≡ self.old.copies }
        ensures patrons { self.new.patrons ≡ self.old.patrons }
    {
        let patron = loan.patron;
        let last = self.last_below(patron, copy);
        self.lists.put(patron, last, copy);
        self.table.set(copy.number() as usize, loan);
    }

    /// Ends the loan of a copy and hands it out, if there is one.
    pub(crate) fn end(&mut self, copy: CopyNo) -> Option<Loan>
        ensures ended { result ≡ map.get self.old.loans copy }
        ensures loans { self.new.loans ≡ map.remove self.old.loans copy }
        ensures copies { self.new.copies ≡ self.old.copies }
        ensures patrons { self.new.patrons ≡ self.old.patrons }
    {
        let at = copy.number() as usize;
        let loan = self.table.get(at).copied()?;
        let last = self.last_below(loan.patron, copy);
        self.table.take(at);
        self.lists.take(loan.patron, last, copy);
        Some(loan)
    }

    /// Gives the loan of a copy a new due day, and counts the renewal.
    pub(crate) fn renew(&mut self, copy: CopyNo, due: Day)
        requires lent { IsRenewable (map.get self.old.loans copy) }
        ensures loans { self.new.loans ≡ with_renewal self.old.loans copy due }
        ensures copies { self.new.copies ≡ self.old.copies }
        ensures patrons { self.new.patrons ≡ self.old.patrons }
    {
        let at = copy.number() as usize;
        if let Some(loan) = self.table.get(at).copied() {
            let renewed = Loan {
                patron: loan.patron,
                due,
                renewals: loan.renewals + 1,
            };
            self.table.set(at, renewed);
        }
    }

    /// The last of the patron's copies below this one, or `None` where none is below it.
    fn last_below(&self, patron: PatronNo, copy: CopyNo) -> Option<CopyNo>
        requires { patron < self.now.patrons }
        ensures { IsLastBelow (is_lent_to self.now.loans patron) copy result }
    {
        let mut last = None;
        let mut link = self.lists.first_of(patron);
        while let Some(lent) = link.copy()
            && lent < copy
        {
            last = Some(lent);
            link = self.lists.next_to(lent);
        }
        last
    }

    /// The link to the patron's first copy.
    pub(crate) fn first_of(&self, patron: PatronNo) -> Link
        ensures leads { LeadsOn (is_lent_to self.now.loans patron) 0 result }
        ensures known { AreKnown self.now.loans self.now.copies self.now.patrons }
    {
        if (patron.number() as usize) < self.lists.patrons() {
            self.lists.first_of(patron)
        } else {
            Link::end()
        }
    }

    /// The link from a copy that is on loan to the next one of its patron.
    pub(crate) fn next_to(&self, copy: CopyNo) -> Link
        requires { IsSome (map.get self.now.loans copy) }
        ensures { (patron : ℕ) → is_lent_to self.now.loans patron copy ≡ true
            → LeadsOn (is_lent_to self.now.loans patron) (copy + 1) result }
    {
        self.lists.next_to(copy)
    }
}
