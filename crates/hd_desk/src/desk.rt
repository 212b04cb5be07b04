//! The desk.
#![tactic(auto, unfolding(crate::specs::Desks::desk_of))]

ghost use Rattle.std.specs.Prelude.{◌≡◌, ◌<◌, ◌≤◌, ℕ, [], IfErr, IfOk, OnOk};
ghost use Rattle.std.specs.Arc.{arc_value};
ghost use Rattle.hd_rules.specs.Desk.{at_home};
ghost use Rattle.hd_rules.specs.Facts.{first_number};
ghost use Rattle.hd_rules.specs.Known.{IsKnownHeld, IsKnownState};
ghost use Rattle.hd_rules.specs.Sound.{Sound};
ghost use Rattle.hd_rules.specs.Turns.{item_view};
ghost use Rattle.hd_catalogue.specs.Contents.{facts_of};
ghost use Rattle.hd_desk.specs.declared.open_fault.OpenFault.TheVariants.{Memory};
ghost use Rattle.hd_desk.specs.Desks.{IsKeptDesk, Opens, contents, desk_of, facts};
ghost use Rattle.hd_desk.specs.Rows.{IsRefused, RowsMayStand};

use crate::open_fault::OpenFault;
use hd_catalogue::Catalogue;
use hd_copies::Copies;
use hd_holds::Holds;
use hd_queue::QueueView;
use hd_rules::{
    CopyNo, CopyState, Hold, ItemView, PatronNo, TitleNo, known_rows_tell_a_known_desk,
};
use std::alloc::{AllocError, Allocator, Global};
use std::marker::Model;
use std::sync::Arc;

/// A desk: where each copy of a catalogue is, and the holds of its titles.
pub struct Desk<A: Allocator = Global> {
    pub(crate) copies: Copies<A>,
    pub(crate) holds: Holds<A>,
}

// Written out, so that a caller's proof sees one call and not the drop of each field.
impl<A: Allocator> Drop for Desk<A> {
    fn drop(self) {
        let Desk {
            copies: _copies,
            holds: _holds,
        } = self;
    }
}

impl<A: Allocator> Model for Desk<A> {
    ghost use Rattle.std.specs.Prelude.{◌≡◌};
    ghost use Rattle.hd_catalogue.specs.Contents.{facts_of};
    ghost use Rattle.hd_desk.specs.DeskValue.{DeskValue};
    ghost use Rattle.hd_desk.specs.Desks.{IsKeptDesk, desk_of};

    ghost Value = { DeskValue };

    ghost view = { λ d. record { copies = d.copies; holds = d.holds } };

    ghost invariant = { λ d. (d.holds.contents ≡ d.copies.contents)
        × IsKeptDesk (facts_of d.copies.contents) (desk_of (record { copies = d.copies; holds = d.holds })) };
}

impl<A: Allocator + Copy> Desk<A> {
    /// The desk that a catalogue's journal opens with: each copy at home and no holds, and then what the
    /// catalogue's opening rows say, one after another. It is sound, with the first number that a command is
    /// given or any above it.
    ///
    /// # Errors
    /// `Row` for the first row that is refused after those before it, and why; `Memory`. Without rows it can
    /// only be `Memory`.
    pub fn open(alloc: A, catalogue: Arc<Catalogue<A>, A>) -> Result<Desk<A>, OpenFault>
        ensures contents { IfOk result (λ desk. contents desk ≡ arc_value catalogue) }
        ensures opening { IfOk result (λ desk. desk_of desk ≡ (facts_of (arc_value catalogue)).opening.desk) }
        ensures opens { IfOk result (λ desk. Opens (facts desk)) }
        ensures sound { IfOk result (λ desk. (n : ℕ) → first_number (facts desk) ≤ n
            → Sound (facts desk) n (desk_of desk)) }
        ensures stand { OnOk result (RowsMayStand (arc_value catalogue)) }
        ensures refused { IfErr result (IsRefused (arc_value catalogue)) }
        ensures fresh { (arc_value catalogue).opening.rows ≡ [] → IfErr result (λ fault. fault ≡ Memory) }
    {
        known_rows_tell_a_known_desk();
        let mut desk = Desk::at_home(alloc, Arc::try_clone(&catalogue)?)?;
        desk.put_rows(catalogue.opening())?;
        Ok(desk)
    }

    /// Each copy at home, and no holds.
    fn at_home(alloc: A, catalogue: Arc<Catalogue<A>, A>) -> Result<Desk<A>, AllocError>
        ensures contents { IfOk result (λ desk. contents desk ≡ arc_value catalogue) }
        ensures desk { IfOk result (λ desk. desk_of desk ≡ at_home (facts_of (arc_value catalogue)).home) }
    {
        let copies = Copies::open(alloc, Arc::try_clone(&catalogue)?)?;
        let holds = Holds::open(alloc, catalogue)?;
        Ok(Desk { copies, holds })
    }

    /// The catalogue.
    pub fn catalogue(&self) -> &Arc<Catalogue<A>, A>
        ensures { arc_value result.now ≡ contents self.now }
    {
        self.copies.catalogue()
    }

    /// Where the copy is. The desk is fit: each hold is kept under its own patron, no two holds of a title
    /// have the same stamp, and no two copies have the same place.
    pub fn copy(&self, copy: CopyNo) -> CopyState
        requires { copy < (facts self.now).copies }
        ensures state { result ≡ (desk_of self.now).copy copy }
        ensures known { IsKnownState (facts self.now) result }
        ensures kept { IsKeptDesk (facts self.now) (desk_of self.now) }
    {
        self.copies.get(copy)
    }

    /// The patron's hold of the title, or `None` where there is none. The desk is fit, as
    /// [`copy`](Desk::copy) says.
    pub fn hold(&self, title: TitleNo, patron: PatronNo) -> Option<Hold>
        requires { title < (facts self.now).titles }
        ensures held { result ≡ (desk_of self.now).hold title patron }
        ensures known { IsKnownHeld (facts self.now) result }
        ensures kept { IsKeptDesk (facts self.now) (desk_of self.now) }
    {
        self.holds.get(title, patron)
    }

    /// Where the copy is, and how many holds its title has.
    pub fn item(&self, copy: CopyNo) -> ItemView
        requires { copy < (facts self.now).copies }
        ensures { result ≡ item_view (facts self.now) (desk_of self.now) copy }
    {
        let title = self.title_of(copy);
        let holds = self.holds.count(title);
        let state = self.copy(copy);
        ItemView { state, holds }
    }
}
