//! How a catalogue's journal begins.
#![tactic(auto, unfolding(crate::specs::Contents::facts_of))]

ghost use Rattle.std.specs.Prelude.{◌≡◌, ◌↔◌, ◌+◌, ◌<◌, ◌≤◌, All, IfErr, IfNone, IfOk, IfSome, IsTrue, OnOk};
ghost use Rattle.hd_rules.specs.declared.limits.TheConstants.{MOST_GIVEN};
ghost use Rattle.hd_rules.specs.Desk.{at_home};
ghost use Rattle.hd_rules.specs.Facts.{AreInRange, first_number};
ghost use Rattle.hd_rules.specs.Known.{IsKnownHold, IsKnownKind, IsKnownRow};
ghost use Rattle.hd_rules.specs.Rows.{IsInBounds, with_rows};
ghost use Rattle.hd_catalogue.specs.Contents.{Contents, Fits, facts_of, told_by};
ghost use Rattle.hd_catalogue.specs.Openings.{IsFirstUnfit, IsOpeningFault};

use crate::catalogue::Catalogue;
use hd_rules::{BranchNo, CopyNo, Hold, HoldKind, MOST_GIVEN, OpeningRow, PatronNo, TitleNo};
use std::alloc::Allocator;

/// Why a catalogue's journal can't begin with the rows and the last number that were given.
#[derive(Clone, Copy, PartialEq, Eq, Debug)]
pub enum OpeningFault {
    /// The last number given before is above `MOST_GIVEN`.
    Last,
    /// The row with this index, from 0, is the first that names what the catalogue lacks, has a stamp above
    /// the last number or place 0, or is a hold's and says which copy it has: the copy's own row says that.
    Row { index: usize },
}

/// Whether the numbers of a row are in their bounds, where this is the last one that was given.
fn is_in_bounds(row: &OpeningRow, last: u32) -> bool
    ensures { IsTrue result ↔ IsInBounds (last + 1) row.now }
{
    match row {
        OpeningRow::Hold { hold, .. } => hold.stamp <= u64::from(last) && hold.copy.is_none(),
        OpeningRow::HoldShelf { place, .. } => *place > 0,
        _ => true,
    }
}

impl<A: Allocator + Copy> Catalogue<A> {
    /// The rows that say with which desk the catalogue's journal opens.
    pub fn opening(&self) -> &[OpeningRow]
        ensures rows { result.now ≡ self.now.opening.rows }
        ensures known { All (IsKnownRow (facts_of self.now)) result.now }
        ensures bounds { All (IsInBounds (first_number (facts_of self.now))) result.now }
        ensures desk { let k = facts_of self.now in
            k.opening.desk ≡ with_rows k.title_of (at_home k.home) result.now }
        ensures facts { AreInRange (facts_of self.now) }
    {
        self.rows.as_slice()
    }

    /// The last number that was given to a command before the catalogue's journal begins: 0 where the journal
    /// is its library's first.
    pub fn last_before(&self) -> u32
        ensures last { result ≡ (facts_of self.now).opening.last }
        ensures most { result ≤ MOST_GIVEN }
    {
        self.last
    }

    /// The same catalogue with a journal that begins so: the rows give its desk, and `last` is the last
    /// number that was given before. Whether the rows give a sound desk isn't checked here. It takes no
    /// memory.
    ///
    /// # Errors
    /// `Last` where that number is too high, and else `Row` where a row doesn't fit.
    pub fn with_opening(
        mut self,
        rows: Vec<OpeningRow, A>,
        last: u32,
    ) -> Result<Catalogue<A>, OpeningFault>
        ensures opens { IfOk result (λ catalogue. catalogue
            ≡ record self { opening = told_by rows.items last }) }
        ensures fit { OnOk result (All (Fits (facts_of self) (last + 1)) rows.items) }
        ensures last { OnOk result (last ≤ MOST_GIVEN) }
        ensures refused { IfErr result (IsOpeningFault (facts_of self) (told_by rows.items last)) }
    {
        if last > MOST_GIVEN {
            return Err(OpeningFault::Last);
        }
        match self.first_unfit(rows.as_slice(), last) {
            Some(index) => Err(OpeningFault::Row { index }),
            None => {
                self.rows = rows;
                self.last = last;
                Ok(self)
            }
        }
    }

    /// The index of the first row that doesn't fit, or `None` where each does.
    fn first_unfit(&self, rows: &[OpeningRow], last: u32) -> Option<usize>
        ensures none { IfNone result (All (Fits (facts_of self.now) (last + 1)) rows.now) }
        ensures some { IfSome result (IsFirstUnfit (facts_of self.now) (last + 1) rows.now) }
    {
        for index in 0..rows.len() {
            if !self.fits(&rows[index], last) {
                return Some(index);
            }
        }
        None
    }

    /// Whether a row fits the catalogue, where this is the last number that was given.
    fn fits(&self, row: &OpeningRow, last: u32) -> bool
        ensures { IsTrue result ↔ Fits (facts_of self.now) (last + 1) row.now }
    {
        self.knows_row(row) && is_in_bounds(row, last)
    }

    /// Whether all that a row names is in the catalogue.
    fn knows_row(&self, row: &OpeningRow) -> bool
        ensures { IsTrue result ↔ IsKnownRow (facts_of self.now) row.now }
    {
        match row {
            OpeningRow::Loan { copy, loan } => self.has_copy(*copy) && self.has_patron(loan.patron),
            OpeningRow::OpenShelf { copy, branch } => {
                self.has_copy(*copy) && self.has_branch(*branch)
            }
            OpeningRow::Hold { title, hold } => self.has_title(*title) && self.knows_hold(hold),
            OpeningRow::HoldShelf { copy, patron, .. } => {
                self.has_copy(*copy) && self.has_patron(*patron)
            }
            OpeningRow::HoldTransit { copy, patron, from } => {
                self.has_copy(*copy) && self.has_patron(*patron) && self.has_branch(*from)
            }
            OpeningRow::Transit { copy, from, to } => {
                self.has_copy(*copy) && self.has_branch(*from) && self.has_branch(*to)
            }
        }
    }

    /// Whether all that a hold names is in the catalogue.
    fn knows_hold(&self, hold: &Hold) -> bool
        ensures { IsTrue result ↔ IsKnownHold (facts_of self.now) hold.now }
    {
        let has_its_copy = match hold.copy {
            Some(copy) => self.has_copy(copy),
            None => true,
        };
        self.has_patron(hold.patron)
            && self.knows_kind(hold.kind)
            && self.has_branch(hold.pickup)
            && has_its_copy
    }

    /// Whether the copy that a hold admits alone is in the catalogue.
    fn knows_kind(&self, kind: HoldKind) -> bool
        ensures { IsTrue result ↔ IsKnownKind (facts_of self.now) kind }
    {
        match kind {
            HoldKind::One(copy) => self.has_copy(copy),
            HoldKind::Any | HoldKind::AtBranch => true,
        }
    }

    /// Whether the copy is one of the catalogue.
    fn has_copy(&self, copy: CopyNo) -> bool
        ensures { IsTrue result ↔ (copy < (facts_of self.now).copies) }
    {
        (copy.number() as usize) < self.copies.count()
    }

    /// Whether the title is one of the catalogue.
    fn has_title(&self, title: TitleNo) -> bool
        ensures { IsTrue result ↔ (title < (facts_of self.now).titles) }
    {
        (title.number() as usize) < self.titles.count()
    }

    /// Whether the patron is one of the catalogue.
    fn has_patron(&self, patron: PatronNo) -> bool
        ensures { IsTrue result ↔ (patron < (facts_of self.now).patrons) }
    {
        (patron.number() as usize) < self.patrons.count()
    }

    /// Whether the branch is one of the catalogue.
    fn has_branch(&self, branch: BranchNo) -> bool
        ensures { IsTrue result ↔ (branch < (facts_of self.now).branches) }
    {
        (branch.number() as usize) < self.branches.count()
    }
}
