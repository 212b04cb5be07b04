//! Lists of copies by patron, as links.
ghost use Rattle.std.specs.Prelude.{◌≡◌, ℕ, ◌<◌, IfOk, length, replicate, slice_index};
ghost use Rattle.std.specs.FinMap as map;
ghost use Rattle.hd_rules.specs.declared.copies.Loan.{Loan};
ghost use Rattle.hd_rules.specs.declared.limits.TheConstants.{MOST_COPIES};
ghost use Rattle.hd_loans.specs.LoansValue.{LoansMap};
ghost use Rattle.hd_loans.specs.Links.{AreLinked, HasRoom, IsFreeBehind, IsLentBehind};

use crate::link::Link;
use hd_rules::{CopyNo, PatronNo};
use std::alloc::{AllocError, Allocator};
use std::marker::Model;

/// A list of copies for each patron.
///
/// All its room is made by `new`. No other call takes memory.
#[derive(Drop)]
pub(crate) struct Links<A: Allocator> {
    /// To the first copy of each patron.
    firsts: Vec<Link, A>,
    /// From each copy that is on a list to the next one there.
    nexts: Vec<Link, A>,
}

impl<A: Allocator> Model for Links<A> {
    ghost use Rattle.hd_loans.specs.Links.{LinksValue};

    ghost Value = { LinksValue };

    ghost view = { λ l. record { firsts = l.firsts.items; nexts = l.nexts.items } };
}

impl<A: Allocator + Copy> Links<A> {
    /// Empty lists, with room for the copies and the patrons below these numbers.
    ///
    /// Answers `AllocError` where there is no memory for them.
    pub(crate) fn new(alloc: A, copies: u32, patrons: u32) -> Result<Links<A>, AllocError>
        ensures firsts { IfOk result (λ made. made.firsts ≡ replicate patrons MOST_COPIES) }
        ensures nexts { IfOk result (λ made. length made.nexts ≡ copies) }
    {
        let firsts = vec![in alloc; Link::end(); patrons as usize]?;
        let nexts = vec![in alloc; Link::end(); copies as usize]?;
        Ok(Links { firsts, nexts })
    }
}

impl<A: Allocator> Links<A> {
    /// How many patrons have a list.
    pub(crate) fn patrons(&self) -> usize
        ensures { result ≡ length self.now.firsts }
    {
        self.firsts.len()
    }

    /// The link to the first copy of the patron's list.
    pub(crate) fn first_of(&self, patron: PatronNo) -> Link
        requires { patron < length self.now.firsts }
        ensures { result ≡ slice_index self.now.firsts patron }
    {
        self.firsts[patron.number() as usize]
    }

    /// The link from the copy to the next one of its list.
    pub(crate) fn next_to(&self, copy: CopyNo) -> Link
        requires { copy < length self.now.nexts }
        ensures { result ≡ slice_index self.now.nexts copy }
    {
        self.nexts[copy.number() as usize]
    }

    /// Puts a copy into the patron's list, after the last one below it, or first where none is below it.
    pub(crate) fn put(&mut self, patron: PatronNo, last: Option<CopyNo>, copy: CopyNo)
        requires { HasRoom self.old patron last copy }
        ensures linked { (loans : LoansMap) (copies : ℕ) (loan : Loan) → loan.patron ≡ patron
            → IsFreeBehind loans loan last copy → AreLinked loans copies self.old
            → AreLinked (map.insert loans copy loan) copies self.new }
        ensures patrons { length self.new.firsts ≡ length self.old.firsts }
    {
        let at = copy.number() as usize;
        match last {
            Some(before) => {
                let before = before.number() as usize;
                let next = self.nexts[before];
                self.nexts[at] = next;
                self.nexts[before] = Link::to(copy);
            }
            None => {
                let patron = patron.number() as usize;
                let next = self.firsts[patron];
                self.nexts[at] = next;
                self.firsts[patron] = Link::to(copy);
            }
        }
    }

    /// Takes a copy out of the patron's list, where it is after the last one below it, or first where
    /// none is below it.
    pub(crate) fn take(&mut self, patron: PatronNo, last: Option<CopyNo>, copy: CopyNo)
        requires { HasRoom self.old patron last copy }
        ensures linked { (loans : LoansMap) (copies : ℕ) (loan : Loan) → loan.patron ≡ patron
            → IsLentBehind loans loan last copy → AreLinked loans copies self.old
            → AreLinked (map.remove loans copy) copies self.new }
        ensures patrons { length self.new.firsts ≡ length self.old.firsts }
    {
        let next = self.nexts[copy.number() as usize];
        match last {
            Some(before) => self.nexts[before.number() as usize] = next,
            None => self.firsts[patron.number() as usize] = next,
        }
    }
}
