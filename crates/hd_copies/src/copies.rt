//! The copies.
#![tactic(auto, unfolding(crate::specs::Standing::standing))]

ghost use Rattle.std.specs.Prelude.{◌≡◌, ℕ, ◌<◌, ◌==◌, IfOk, MatchOption, OnOk, OnErr, if◌then◌else◌, length};
ghost use Rattle.std.specs.Arc.{arc_value};
ghost use Rattle.hd_rules.specs.declared.copies.CopyState.{CopyState};
ghost use Rattle.hd_rules.specs.declared.copies.CopyState.TheVariants.{Shelf};
ghost use Rattle.hd_rules.specs.Desk.{Desk};
ghost use Rattle.hd_rules.specs.Facts.{AreInRange};
ghost use Rattle.hd_rules.specs.Choose.{loans, on_shelf};
ghost use Rattle.hd_rules.specs.Find.{place};
ghost use Rattle.hd_rules.specs.Known.{IsKnownState};
ghost use Rattle.hd_rules.specs.Sound.{PlacesFit};
ghost use Rattle.hd_catalogue.specs.Contents.{facts_of};
ghost use Rattle.hd_copies.specs.Standing.{AreAtHome, HasRoom, IsFree, IsFromOne, IsWelcome, StandsAt, facts};
ghost use Rattle.hd_copies.specs.Standing.{lent_to, standing, stands_ready};

use crate::indexes::Indexes;
use hd_catalogue::Catalogue;
use hd_loans::LentCopies;
use hd_rules::{BranchNo, CopyNo, CopyState, HoldKind, PatronNo, TitleNo, place_is_the_least_free};
use std::alloc::{AllocError, Allocator, Global};
use std::marker::Model;
use std::sync::Arc;

/// Where each copy of a catalogue is (docs/desk-rules.md, "State").
///
/// Only `open` and `ready` take memory, and only `open` walks all copies.
#[derive(Drop)]
pub struct Copies<A: Allocator = Global> {
    catalogue: Arc<Catalogue<A>, A>,
    /// Where each copy is, by its number.
    states: Vec<CopyState, A>,
    /// The same, by what copies are asked for.
    indexes: Indexes<A>,
}

impl<A: Allocator> Model for Copies<A> {
    ghost use Rattle.std.specs.Prelude.{slice_get};
    ghost use Rattle.std.specs.Arc.{arc_value};
    ghost use Rattle.hd_catalogue.specs.Contents.{facts_of};
    ghost use Rattle.hd_copies.specs.CopiesValue.{CopiesValue};
    ghost use Rattle.hd_copies.specs.Standing.{AreStates};
    ghost use Rattle.hd_copies.specs.Indexing.{IsIndexed, rooms_in};
    ghost use Rattle.hd_copies.specs.Keeping.{AreKept};

    ghost Value = { CopiesValue };

    ghost view = { λ c. record {
      contents = arc_value c.catalogue;
      states = c.states.items;
      rooms = rooms_in c.indexes.shelves;
    } };

    ghost invariant = { λ c. AreKept (facts_of (arc_value c.catalogue)) c.states.items c.indexes };
}

impl<A: Allocator + Copy> Copies<A> {
    /// Each copy on the open shelf of its home.
    ///
    /// Answers `AllocError` where there is no memory for it.
    pub fn open(alloc: A, catalogue: Arc<Catalogue<A>, A>) -> Result<Copies<A>, AllocError>
        ensures contents { IfOk result (λ made. made.contents ≡ arc_value catalogue) }
        ensures at_home { IfOk result
            (λ made. standing made ≡ (λ c. Shelf ((facts_of (arc_value catalogue)).home c))) }
        ensures range { IfOk result (λ made. AreInRange (facts made)) }
    {
        let states = at_home(alloc, &catalogue)?;
        let indexes = Indexes::new(alloc, &catalogue)?;
        Ok(Copies {
            catalogue,
            states,
            indexes,
        })
    }

    /// The catalogue.
    pub fn catalogue(&self) -> &Arc<Catalogue<A>, A>
        ensures { arc_value result.now ≡ self.now.contents }
    {
        &self.catalogue
    }

    /// Where the copy is. No two copies share a place of a hold shelf.
    pub fn get(&self, copy: CopyNo) -> CopyState
        requires { copy < (facts self.now).copies }
        ensures state { result ≡ standing self.now copy }
        ensures known { IsKnownState (facts self.now) result }
        ensures places { PlacesFit (facts self.now) (standing self.now) }
    {
        self.states[copy.number() as usize]
    }

    /// Makes room for a copy to go there.
    ///
    /// Answers `AllocError` where there is no memory for it, and then nothing is changed. It does so only for
    /// a place of a hold shelf that has no room yet.
    pub fn ready(&mut self, new: &CopyState) -> Result<(), AllocError>
        requires known { IsKnownState (facts self.old) new.now }
        requires from_one { IsFromOne new.now }
        ensures standing { standing self.new ≡ standing self.old }
        ensures contents { self.new.contents ≡ self.old.contents }
        ensures ok { OnOk result (HasRoom self.new.rooms new.now) }
        ensures err { OnErr result (self.new ≡ self.old) }
        ensures full { OnErr result (HasRoom self.old.rooms new.now → ⊥) }
        ensures room { (s : CopyState) → HasRoom self.old.rooms s → HasRoom self.new.rooms s }
    {
        match new {
            CopyState::OnHoldShelf(there) => self.indexes.ready(there.branch, there.place),
            _ => Ok(()),
        }
    }

    /// The copy goes there. It takes no memory.
    pub fn put(&mut self, copy: CopyNo, new: &CopyState)
        requires copy { copy < (facts self.old).copies }
        requires known { IsKnownState (facts self.old) new.now }
        requires room { HasRoom self.old.rooms new.now }
        requires welcome { IsWelcome (facts self.old) (standing self.old) copy new.now }
        ensures standing { standing self.new ≡ (λ c. if copy == c then new.now else standing self.old c) }
        ensures contents { self.new.contents ≡ self.old.contents }
        ensures rooms { self.new.rooms ≡ self.old.rooms }
    {
        let at = copy.number() as usize;
        self.indexes.leave(&self.catalogue, &self.states, copy);
        self.states[at] = *new;
        self.indexes.enter(&self.catalogue, &self.states, copy);
    }

    /// How many copies the patron has on loan (docs/desk-rules.md, "Room").
    pub fn loans_of(&self, patron: PatronNo) -> u32
        ensures { (d : Desk) → d.copy ≡ standing self.now → result ≡ loans (facts self.now) d patron }
    {
        self.indexes.loans.count(patron)
    }

    /// The copies that the patron has on loan, each once, by rising number. It takes no memory.
    pub fn lent_to(&self, patron: PatronNo) -> LentCopies<'_, A>
        ensures copies { result ≡ lent_to (facts self.now) (standing self.now) patron }
        ensures count { (d : Desk) → d.copy ≡ standing self.now
            → length result ≡ loans (facts self.now) d patron }
    {
        self.indexes.loans.of(patron)
    }

    /// The least place, from 1, of the branch's hold shelf at which there is no copy (docs/desk-rules.md,
    /// "Place").
    pub fn least_free(&self, branch: BranchNo) -> u32
        requires { branch < (facts self.now).branches }
        ensures { (d : Desk) → d.copy ≡ standing self.now → result ≡ place (facts self.now) d branch }
    {
        place_is_the_least_free();
        self.indexes.shelves[branch.number() as usize].least_free()
    }

    /// The copy at this place of the branch's hold shelf, or `None` where there is none.
    pub fn at(&self, branch: BranchNo, place: u32) -> Option<CopyNo>
        requires { branch < (facts self.now).branches }
        ensures { MatchOption result (IsFree (facts self.now) (standing self.now) branch place)
            (StandsAt (facts self.now) (standing self.now) branch place) }
    {
        self.indexes.shelves[branch.number() as usize].at(place)
    }

    /// How many copies of the title that a hold of this kind and pickup admits are on open shelves.
    pub fn on_shelf(&self, title: TitleNo, kind: &HoldKind, pickup: BranchNo) -> u32
        requires { title < (facts self.now).titles }
        ensures { (d : Desk) → d.copy ≡ standing self.now
            → result ≡ on_shelf (facts self.now) d title kind.now pickup }
    {
        match *kind {
            HoldKind::Any => self.indexes.stock.of_title(title),
            HoldKind::One(copy) => u32::from(self.stands_ready(title, copy)),
            HoldKind::AtBranch => self.indexes.stock.of_home(title, pickup),
        }
    }

    /// Whether the copy is one of the title, and is on an open shelf.
    fn stands_ready(&self, title: TitleNo, copy: CopyNo) -> bool
        ensures { result ≡ stands_ready (facts self.now) (standing self.now) title copy }
    {
        (copy.number() as usize) < self.states.len()
            && self.catalogue.title_of(copy) == title
            && matches!(self.get(copy), CopyState::Shelf(_))
    }
}

/// The home of each copy.
fn at_home<A: Allocator + Copy>(
    alloc: A,
    catalogue: &Catalogue<A>,
) -> Result<Vec<CopyState, A>, AllocError>
    ensures home { IfOk result (λ states. AreAtHome (facts_of catalogue.now) states.items) }
    ensures range { AreInRange (facts_of catalogue.now) }
{
    let copies = catalogue.copies();
    let mut states = Vec::with_capacity(alloc, copies)?;
    for number in 0..copies {
        let copy = CopyNo::new(number as u32).unwrap();
        states.push(CopyState::Shelf(catalogue.home(copy)))?;
    }
    Ok(states)
}
