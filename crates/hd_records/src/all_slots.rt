//! A slot for each number, also for those that were given before.
#![tactic(auto)]

ghost use Rattle.std.specs.Prelude.{◌≡◌, ◌≤◌, ◌<◌, ◌+◌, ◌^◌, ◌++◌, ◌∷◌, [], None, Some, OnErr, OnOk};
ghost use Rattle.std.specs.Prelude.{length, slice_index_or, slice_set};
ghost use Rattle.hd_catalogue.specs.Contents.{facts_of};
ghost use Rattle.hd_clash.specs.Law.{EachCellIsKnown};
ghost use Rattle.hd_clash.specs.Records.{EachRecordIsKnown};
ghost use Rattle.hd_records.specs.Behind.{behind};
ghost use Rattle.hd_records.specs.Slots.{shift_slot, records_there};
ghost use Rattle.hd_records.specs.Survivors.{survivors_of};

use crate::record::NewRecord;
use crate::record_view::RecordView;
use crate::slots::Slots;
use crate::survivors::Survivors;
use hd_catalogue::Catalogue;
use hd_rules::Change;
use std::alloc::{AllocError, Allocator, Global};
use std::marker::Model;

/// A slot for each number, from 1 on. Those of the numbers that were given before are empty, and take no
/// memory.
#[derive(Drop)]
pub(crate) struct AllSlots<A: Allocator = Global> {
    /// The last number that was given before.
    before: u32,
    slots: Slots<A>,
}

impl<A: Allocator> Model for AllSlots<A> {
    ghost use Rattle.std.specs.Prelude.{◌<◌, ◌^◌, length};
    ghost use Rattle.hd_records.specs.SlotsValue.{SlotsValue};
    ghost use Rattle.hd_records.specs.Behind.{behind};

    ghost Value = { SlotsValue };

    ghost view = { λ s. record { items = behind s.before s.slots.items; room = s.slots.room } };

    ghost invariant = { λ s. length s.slots.items < 2 ^ 32 };
}

impl<A: Allocator + Copy> AllSlots<A> {
    /// No slots but those of the numbers that were given before. It takes no memory.
    pub(crate) fn new(alloc: A, before: u32) -> AllSlots<A>
        ensures { result.items ≡ behind before [] }
    {
        AllSlots {
            before,
            slots: Slots::new(alloc),
        }
    }
}

impl<A: Allocator> AllSlots<A> {
    /// Makes room for one more slot and the findings and changes of its record. It is out of memory
    /// only where there was no room, and then changes no slot.
    pub(crate) fn ready(&mut self) -> Result<(), AllocError>
        ensures items { self.new.items ≡ self.old.items }
        ensures ok { OnOk result (0 < self.new.room) }
        ensures full { OnErr result (self.old.room ≡ 0) }
        ensures room { self.old.room ≤ self.new.room }
    {
        self.slots.ready()
    }

    /// Puts one more slot with a record after the others. It takes no memory.
    #[tactic(auto, using(crate::proofs::Behind::one_more))]
    pub(crate) fn push(&mut self, new: &NewRecord<'_>)
        requires room { 0 < self.old.room }
        requires number { length self.old.items + 1 < 2 ^ 32 }
        ensures items { self.new.items ≡ self.old.items ++ Some new.now ∷ [] }
        ensures room { self.old.room ≤ self.new.room + 1 }
    {
        self.slots.push(new);
    }

    /// How many there are.
    #[tactic(auto, using(crate::proofs::Behind::length_behind))]
    pub(crate) fn len(&self) -> usize
        ensures { result ≡ length self.now.items }
    {
        self.before as usize + self.slots.len()
    }

    /// The record of a slot, the slots counted from 0.
    #[tactic(auto, using(crate::proofs::Behind::one_looked_at))]
    pub(crate) fn get(&self, place: usize) -> Option<RecordView<'_>>
        ensures { result ≡ slice_index_or self.now.items place None }
    {
        let place = place.checked_sub(self.before as usize)?;
        self.slots.get(place)
    }

    /// The survivors that the records are of, by number.
    #[tactic(auto, using(crate::proofs::Behind::there_behind))]
    pub(crate) fn survivors(&self) -> Survivors<'_>
        ensures { result ≡ survivors_of (records_there self.now.items) }
    {
        self.slots.survivors()
    }

    /// Takes the record of a slot out. Nothing is moved.
    #[tactic(auto, using(crate::proofs::Behind::one_set))]
    pub(crate) fn empty(&mut self, place: usize)
        requires { place < length self.old.items }
        ensures items { self.new.items ≡ slice_set self.old.items place None }
        ensures room { self.new.room ≡ self.old.room }
    {
        let before = self.before as usize;
        if before <= place {
            self.slots.empty(place - before);
        }
    }

    /// Mends the record of a slot, if it has one: what it noted becomes what is found without the changes.
    #[tactic(auto, using(crate::proofs::Behind::one_set, crate::proofs::Behind::one_looked_at))]
    pub(crate) fn mend<B: Allocator + Copy>(
        &mut self,
        catalogue: &Catalogue<B>,
        changes: &[Change],
        place: usize,
    )
        requires there { place < length self.old.items }
        requires few { length changes.now ≤ 4 }
        requires cells { EachCellIsKnown (facts_of catalogue.now) changes.now }
        requires known { EachRecordIsKnown (facts_of catalogue.now)
            (records_there (slice_index_or self.old.items place None ∷ [])) }
        ensures items { self.new.items
            ≡ slice_set self.old.items place
            (shift_slot (facts_of catalogue.now) changes.now (slice_index_or self.old.items place None)) }
        ensures room { self.new.room ≡ self.old.room }
    {
        let before = self.before as usize;
        if before <= place {
            self.slots.mend(catalogue, changes, place - before);
        }
    }
}
