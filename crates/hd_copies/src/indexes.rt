//! The indexes by which copies are found.
ghost use Rattle.std.specs.Prelude.{◌≡◌, ◌≤◌, ℕ, ◌<◌, IfOk, OnOk, OnErr, Option, length, slice_get};
ghost use Rattle.std.specs.Prelude.{slice_index};
ghost use Rattle.hd_rules.specs.declared.copies.CopyState.{CopyState};
ghost use Rattle.hd_rules.specs.Facts.{Facts};
ghost use Rattle.hd_rules.specs.Choose.{LeastFree};
ghost use Rattle.hd_catalogue.specs.Contents.{facts_of};
ghost use Rattle.hd_copies.specs.Standing.{AreStates, HasRoom, state_in};
ghost use Rattle.hd_copies.specs.Indexing.{IsIndexed, IsStock, AreShelves, all_but, each_at_home, rooms_in};

use hd_catalogue::Catalogue;
use hd_loans::Loans;
use hd_open_shelf::Stock;
use hd_rules::{BranchNo, CopyNo, CopyState};
use hd_shelf::Places;
use hd_transit::Transits;
use std::alloc::{AllocError, Allocator};
use std::marker::Model;

/// The copies by what they are asked for. Each copy is found by its state, and no other way.
#[derive(Drop)]
pub(crate) struct Indexes<A: Allocator> {
    /// Those on loan.
    pub(crate) loans: Loans<A>,
    /// Those between branches.
    pub(crate) transits: Transits<A>,
    /// Those on hold shelves, by the branch's number.
    pub(crate) shelves: Vec<Places<A>, A>,
    /// How many are on open shelves.
    pub(crate) stock: Stock<A>,
}

impl<A: Allocator> Model for Indexes<A> {
    ghost use Rattle.hd_copies.specs.IndexesValue.{IndexesValue, indexes_code};

    ghost Value = { IndexesValue };

    ghost coded = { indexes_code };

    ghost view = { λ x. record {
      loans = x.loans;
      transits = x.transits;
      shelves = x.shelves.items;
      stock = x.stock;
    } };
}

impl<A: Allocator + Copy> Indexes<A> {
    /// Each copy on the open shelf of its home.
    pub(crate) fn new(alloc: A, catalogue: &Catalogue<A>) -> Result<Indexes<A>, AllocError>
        ensures { IfOk result (λ made. IsIndexed (facts_of catalogue.now)
            (each_at_home (facts_of catalogue.now)) made) }
    {
        let copies = catalogue.copies() as u32;
        Ok(Indexes {
            loans: Loans::new(alloc, copies, catalogue.patrons() as u32)?,
            transits: Transits::new(alloc, copies)?,
            shelves: empty_shelves(alloc, catalogue)?,
            stock: full_stock(alloc, catalogue)?,
        })
    }

    /// Takes the copy out of the index of the state that it has.
    pub(crate) fn leave(&mut self, catalogue: &Catalogue<A>, states: &[CopyState], copy: CopyNo)
        requires copy { copy < (facts_of catalogue.now).copies }
        requires states { AreStates (facts_of catalogue.now) states.now }
        requires indexed { IsIndexed (facts_of catalogue.now) (slice_get states.now) self.old }
        ensures indexed { IsIndexed (facts_of catalogue.now) (all_but copy (slice_get states.now)) self.new }
        ensures rooms { rooms_in self.new.shelves ≡ rooms_in self.old.shelves }
    {
        match states[copy.number() as usize] {
            CopyState::Shelf(_) => self
                .stock
                .take(catalogue.title_of(copy), catalogue.home(copy)),
            CopyState::OnLoan(_) => {
                self.loans.end(copy);
            }
            CopyState::OnHoldShelf(there) => {
                self.shelves[there.branch.number() as usize].take(there.place);
            }
            CopyState::InTransit(_) => {
                self.transits.arrive(copy);
            }
        }
    }

    /// Puts the copy into the index of the state that it has.
    pub(crate) fn enter(&mut self, catalogue: &Catalogue<A>, states: &[CopyState], copy: CopyNo)
        requires copy { copy < (facts_of catalogue.now).copies }
        requires states { AreStates (facts_of catalogue.now) states.now }
        requires indexed { IsIndexed (facts_of catalogue.now) (all_but copy (slice_get states.now)) self.old }
        requires room { HasRoom (rooms_in self.old.shelves) (state_in states.now copy) }
        ensures indexed { IsIndexed (facts_of catalogue.now) (slice_get states.now) self.new }
        ensures rooms { rooms_in self.new.shelves ≡ rooms_in self.old.shelves }
    {
        match states[copy.number() as usize] {
            CopyState::Shelf(_) => self
                .stock
                .put(catalogue.title_of(copy), catalogue.home(copy)),
            CopyState::OnLoan(loan) => self.loans.lend(copy, loan),
            CopyState::OnHoldShelf(there) => {
                self.shelves[there.branch.number() as usize].put(there.place, copy);
            }
            CopyState::InTransit(transit) => self.transits.send(copy, transit),
        }
    }

    /// Makes room on the branch's hold shelf for this place and each lower one.
    ///
    /// Answers `AllocError` where there is no memory for it, and then nothing is changed. It never does so
    /// for a place that has room.
    pub(crate) fn ready(&mut self, branch: BranchNo, place: u32) -> Result<(), AllocError>
        requires branch { branch < length self.old.shelves }
        requires from_one { 1 ≤ place }
        ensures indexed { (k : Facts) (copies : ℕ → Option CopyState) → IsIndexed k copies self.old
            → IsIndexed k copies self.new }
        ensures ok { OnOk result (place ≤ slice_index (rooms_in self.new.shelves) branch) }
        ensures err { OnErr result (self.new ≡ self.old) }
        ensures full { OnErr result (slice_index (rooms_in self.old.shelves) branch < place) }
        ensures room { (b : ℕ) → slice_index (rooms_in self.old.shelves) b ≤ slice_index
            (rooms_in self.new.shelves) b }
    {
        self.shelves[branch.number() as usize].ready(place)
    }
}

/// An empty hold shelf for each branch.
fn empty_shelves<A: Allocator + Copy>(
    alloc: A,
    catalogue: &Catalogue<A>,
) -> Result<Vec<Places<A>, A>, AllocError>
    ensures { IfOk result (λ made. AreShelves (facts_of catalogue.now) (each_at_home (facts_of catalogue.now))
        made.items) }
{
    let branches = catalogue.branches();
    let mut shelves = Vec::with_capacity(alloc, branches)?;
    for _ in 0..branches {
        shelves.push(Places::new(alloc))?;
    }
    Ok(shelves)
}

/// The counts of the copies while each is at home.
fn full_stock<A: Allocator + Copy>(
    alloc: A,
    catalogue: &Catalogue<A>,
) -> Result<Stock<A>, AllocError>
    ensures { IfOk result (λ made. IsStock (facts_of catalogue.now) (each_at_home (facts_of catalogue.now))
        made) }
{
    let mut stock = Stock::new(alloc, catalogue.titles())?;
    for number in 0..catalogue.copies() {
        let copy = CopyNo::new(number as u32).unwrap();
        stock.stock(catalogue.title_of(copy), catalogue.home(copy))?;
    }
    Ok(stock)
}
