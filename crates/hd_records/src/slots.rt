//! Slots by number, and the lists of what their records found and changed.
#![tactic(auto)]

ghost use Rattle.std.specs.Prelude.{◌≡◌, ◌≤◌, ◌<◌, ◌+◌, ◌++◌, ◌∷◌, [], None, Some, OnErr, OnOk};
ghost use Rattle.std.specs.Prelude.{length, slice_index_or, slice_set};
ghost use Rattle.hd_catalogue.specs.Contents.{facts_of};
ghost use Rattle.hd_clash.specs.Law.{EachCellIsKnown};
ghost use Rattle.hd_clash.specs.Records.{EachRecordIsKnown};
ghost use Rattle.hd_records.specs.Slots.{shift_slot, records_there};
ghost use Rattle.hd_records.specs.Survivors.{survivors_of};

use crate::lists::{append, place_behind, ready_for_four, values_at};
use crate::mending::{has_count, mend_at};
use crate::record::NewRecord;
use crate::record_view::RecordView;
use crate::survivors::Survivors;
use hd_catalogue::Catalogue;
use hd_rules::{Change, Finding, Reply, Survivor};
use std::alloc::{AllocError, Allocator, Global};
use std::marker::Model;

/// Where the values of one record are in a list: `count` of them, from the place `first` on.
#[derive(Clone, Copy)]
pub(crate) struct Span {
    pub(crate) first: u32,
    pub(crate) count: u8,
}

/// What a slot itself has of a record.
#[derive(Clone, Copy)]
pub(crate) struct RecordHead {
    pub(crate) survivor: Survivor,
    pub(crate) reply: Reply,
}

/// The slot of a number. Where its record was taken out it has none, and its findings and changes stay where
/// they are.
#[derive(Clone, Copy)]
pub(crate) struct Slot {
    pub(crate) findings: Span,
    pub(crate) changes: Span,
    pub(crate) has_count: bool,
    pub(crate) kept: Option<RecordHead>,
}

/// A slot for each number, from 1 on, with the record of that number or none.
///
/// The findings of all records are in one list and the changes in another, those of a slot after those of the
/// slot before it. So a record takes memory only for the findings and changes that it has, and a walk reads
/// them one after the other. Only `ready` takes memory.
#[derive(Drop)]
pub(crate) struct Slots<A: Allocator = Global> {
    slots: Vec<Slot, A>,
    findings: Vec<Finding, A>,
    changes: Vec<Change, A>,
}

impl<A: Allocator> Model for Slots<A> {
    ghost use Rattle.std.specs.Prelude.{◌-◌, min, vec_capacity, vec_len};
    ghost use Rattle.hd_records.specs.SlotsValue.{SlotsValue};
    ghost use Rattle.hd_records.specs.Laid.{AreLaid, records_in};
    ghost use Rattle.hd_records.specs.Room.{room_of_four};

    ghost Value = { SlotsValue };

    ghost view = { λ s. record {
      items = records_in s.slots.items s.findings.items s.changes.items;
      room = min (vec_capacity s.slots - vec_len s.slots)
          (min (room_of_four (vec_len s.findings) (vec_capacity s.findings))
          (room_of_four (vec_len s.changes) (vec_capacity s.changes)));
    } };

    ghost invariant = { λ s. AreLaid 0 0 s.slots.items s.findings.items s.changes.items };
}

impl<A: Allocator + Copy> Slots<A> {
    /// No slots. It takes no memory.
    pub(crate) fn new(alloc: A) -> Slots<A>
        ensures { result.items ≡ [] }
    {
        Slots {
            slots: Vec::new(alloc),
            findings: Vec::new(alloc),
            changes: Vec::new(alloc),
        }
    }
}

impl<A: Allocator> Slots<A> {
    /// Makes room for one more slot and the findings and changes of its record. It is out of memory
    /// only where there was no room, and then changes no slot.
    pub(crate) fn ready(&mut self) -> Result<(), AllocError>
        ensures items { self.new.items ≡ self.old.items }
        ensures ok { OnOk result (0 < self.new.room) }
        ensures full { OnErr result (self.old.room ≡ 0) }
        ensures room { self.old.room ≤ self.new.room }
    {
        self.slots.reserve(1)?;
        ready_for_four(&mut self.findings)?;
        ready_for_four(&mut self.changes)
    }

    /// Puts one more slot with a record after the others. It takes no memory.
    pub(crate) fn push(&mut self, new: &NewRecord<'_>)
        requires { 0 < self.old.room }
        ensures items { self.new.items ≡ self.old.items ++ Some new.now ∷ [] }
        ensures room { self.old.room ≤ self.new.room + 1 }
    {
        let findings = new.findings();
        let changes = new.changes();
        let slot = Slot {
            findings: place_behind(&self.findings, findings),
            changes: place_behind(&self.changes, changes),
            has_count: has_count(findings),
            kept: Some(RecordHead {
                survivor: *new.survivor(),
                reply: new.reply(),
            }),
        };
        append(&mut self.findings, findings);
        append(&mut self.changes, changes);
        self.slots.push_reserved(slot);
    }

    /// How many there are.
    pub(crate) fn len(&self) -> usize
        ensures { result ≡ length self.now.items }
    {
        self.slots.len()
    }

    /// The record of a slot, the slots counted from 0.
    pub(crate) fn get(&self, place: usize) -> Option<RecordView<'_>>
        ensures { result ≡ slice_index_or self.now.items place None }
    {
        if place >= self.slots.len() {
            return None;
        }
        let slot = &self.slots[place];
        let kept = slot.kept.as_ref()?;
        let findings = values_at(self.findings.as_slice(), slot.findings);
        let changes = values_at(self.changes.as_slice(), slot.changes);
        Some(RecordView::new(kept, findings, changes))
    }

    /// The survivors that the records are of, by number.
    pub(crate) fn survivors(&self) -> Survivors<'_>
        ensures { result ≡ survivors_of (records_there self.now.items) }
    {
        Survivors::new(self.slots.as_slice())
    }

    /// Takes the record of a slot out. Nothing is moved.
    pub(crate) fn empty(&mut self, place: usize)
        requires { place < length self.old.items }
        ensures items { self.new.items ≡ slice_set self.old.items place None }
        ensures room { self.new.room ≡ self.old.room }
    {
        self.slots[place].kept = None;
    }

    /// Mends the record of a slot, if it has one: what it noted becomes what is found without the changes. Of
    /// a record that noted no count the slot alone is read.
    pub(crate) fn mend<B: Allocator + Copy>(
        &mut self,
        catalogue: &Catalogue<B>,
        changes: &[Change],
        place: usize,
    )
        requires there { place < length self.old.items }
        requires few { length changes.now ≤ 4 }
        requires cells { EachCellIsKnown (facts_of catalogue.now) changes.now }
        requires known { EachRecordIsKnown (facts_of catalogue.now)
            (records_there (slice_index_or self.old.items place None ∷ [])) }
        ensures items { self.new.items
            ≡ slice_set self.old.items place
            (shift_slot (facts_of catalogue.now) changes.now (slice_index_or self.old.items place None)) }
        ensures room { self.new.room ≡ self.old.room }
    {
        let slot = &self.slots[place];
        if slot.has_count && slot.kept.is_some() {
            let span = slot.findings;
            mend_at(catalogue, changes, &mut self.findings, span);
        }
    }
}
