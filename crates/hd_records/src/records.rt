//! The records, by number.
#![tactic(auto)]

ghost use Rattle.std.specs.Prelude.{◌≡◌, ◌<◌, ◌+◌, ◌++◌, ◌∷◌, [], ◌≤◌, ◌^◌, filter, option_map};
ghost use Rattle.std.specs.Prelude.{IfSome, IsSome, OnErr, OnOk, length};
ghost use Rattle.hd_catalogue.specs.Contents.{facts_of};
ghost use Rattle.hd_clash.specs.Clash.{first_clash};
ghost use Rattle.hd_clash.specs.Shift.{shift_records};
ghost use Rattle.hd_rules.specs.Facts.{Facts};
ghost use Rattle.hd_rules.specs.Run.{Rising};
ghost use Rattle.hd_rules.specs.Known.{IsKnownAction, IsKnownCancel};
ghost use Rattle.hd_clash.specs.About.{touches};
ghost use Rattle.hd_clash.specs.CommandKeys.{keys_of_command};
ghost use Rattle.hd_clash.specs.declared.key.Key.TheVariants as key;
ghost use Rattle.hd_records.specs.Index.{records_about};
ghost use Rattle.hd_records.specs.RecordsValue.{AreListed, AreOfCatalogue, HasRoomFor};
ghost use Rattle.hd_records.specs.Titles.{title_of_cancel};
ghost use Rattle.hd_records.specs.Looks.{after_looks, looks_to, after_walk};
ghost use Rattle.hd_records.specs.Shown.{record_shown};
ghost use Rattle.hd_records.specs.Survivors.{changes_of, newer, older, record_of, survivors_of};
ghost use Rattle.hd_records.specs.Survivors.{target_of};

use crate::all_slots::AllSlots;
use crate::index::Index;
use crate::record::{NewRecord, RecordRef};
use crate::survivors::Survivors;
use crate::targets::title_of;
use crate::walking;
use arrayvec::ArrayVec;
use hd_catalogue::Catalogue;
use hd_clash::{CommandKeys, only_touched_records_shift, the_first_clash_is_touched};
use hd_meter::Meter;
use hd_rules::{Cancel, Change, Command, TerminalNo};
use std::alloc::{AllocError, Allocator, Global};
use std::marker::Model;

/// The records of the commands that survive, by number.
///
/// Numbers are given one after another, and each has a slot, from that of number 1 on; those of the numbers
/// given before these records, and of a record that was taken out, are empty. The records are listed by what
/// their commands ask about, so that a cancellation looks only at those that have a title, a patron or a
/// branch in common with what it takes back. Only `ready` takes memory.
#[derive(Drop)]
pub struct Records<A: Allocator = Global> {
    slots: AllSlots<A>,
    index: Index<A>,
}

/// A listed number has 32 bits.
const MOST_RECORDS: usize = 4_294_967_295;

impl<A: Allocator> Model for Records<A> {
    ghost use Rattle.std.specs.Prelude.{◌<◌, ◌^◌, length};
    ghost use Rattle.hd_records.specs.RecordsValue.{RecordsValue};
    ghost use Rattle.hd_records.specs.Slots.{AreNumbered, records_there};

    ghost Value = { RecordsValue };

    ghost view = { λ r. record {
      records = records_there r.slots.items;
      last = length r.slots.items;
      room = r.slots.room;
      index = r.index;
    } };

    ghost invariant = { λ r. AreNumbered 0 r.slots.items × (length r.slots.items < 2 ^ 32) };
}

impl<A: Allocator + Copy> Records<A> {
    /// No records, and the last number that was given before them. It takes no memory.
    #[tactic(auto, using(crate::proofs::Behind::records_behind))]
    pub fn new(alloc: A, before: u32) -> Records<A>
        ensures records { result.records ≡ [] }
        ensures last { result.last ≡ before }
        ensures listed { (k : Facts) → AreListed k result }
    {
        Records {
            slots: AllSlots::new(alloc, before),
            index: Index::new(alloc),
        }
    }

    /// Makes room for the record of one more command, before it is carried out. It is out of memory
    /// only where there was no room, and then changes no record.
    pub fn ready(&mut self, catalogue: &Catalogue<A>, command: &Command) -> Result<(), AllocError>
        requires { IsKnownAction (facts_of catalogue.now) command.now.action }
        ensures records { self.new.records ≡ self.old.records }
        ensures last { self.new.last ≡ self.old.last }
        ensures ok { let keys = keys_of_command (facts_of catalogue.now) command.now in
            OnOk result (HasRoomFor keys self.new) }
        ensures full { let keys = keys_of_command (facts_of catalogue.now) command.now in
            OnErr result (HasRoomFor keys self.old → ⊥) }
        ensures room { self.old.room ≤ self.new.room }
        ensures listed { (k : Facts) → AreListed k self.old → AreListed k self.new }
    {
        if self.slots.len() >= MOST_RECORDS {
            return Err(AllocError);
        }
        self.slots.ready()?;
        self.index.ready(CommandKeys::of(catalogue, command))
    }

    /// Puts one more record after the others. Its number is the next one, and there is room for it. It takes
    /// no memory.
    pub fn push(&mut self, catalogue: &Catalogue<A>, new: &NewRecord<'_>)
        requires known { IsKnownAction (facts_of catalogue.now) new.now.command.action }
        requires room { HasRoomFor (keys_of_command (facts_of catalogue.now) new.now.command) self.old }
        requires number { new.now.number ≡ self.old.last + 1 }
        requires listed { AreListed (facts_of catalogue.now) self.old }
        ensures records { self.new.records ≡ self.old.records ++ new.now ∷ [] }
        ensures last { self.new.last ≡ self.old.last + 1 }
        ensures room { self.old.room ≤ self.new.room + 1 }
        ensures listed { AreListed (facts_of catalogue.now) self.new }
    {
        let survivor = new.survivor();
        let keys = CommandKeys::of(catalogue, &survivor.command);
        self.index.push(keys, survivor.number as u32);
        self.slots.push(new);
    }

    /// The last number given, or that given before where none was.
    pub fn last(&self) -> u64
        ensures last { result ≡ self.now.last }
        ensures few { result < 2 ^ 32 }
    {
        self.slots.len() as u64
    }

    /// The record of a number, or `None` where there is none. It is in the number's slot.
    pub fn get(&self, number: u64) -> Option<RecordRef<'_>>
        ensures record { option_map record_shown result ≡ record_of number self.now.records }
        ensures few { IfSome result (λ r. length r.changes.now ≤ 4) }
    {
        let stored = walking::find(&self.slots, number)?;
        Some(stored.show())
    }

    /// The survivors, by number.
    pub fn survivors(&self) -> Survivors<'_>
        ensures survivors { result ≡ survivors_of self.now.records }
        ensures rising { Rising 1 (survivors_of self.now.records) }
    {
        self.slots.survivors()
    }

    /// The number of the newest survivor that such a cancellation by the terminal takes back, or `None` where
    /// there is none. Of the records of its title each is looked at, from the newest on, as far as that one.
    pub fn newest(
        &self,
        catalogue: &Catalogue<A>,
        terminal: TerminalNo,
        what: &Cancel,
        meter: &mut Meter,
    ) -> Option<u64>
        requires known { IsKnownCancel (facts_of catalogue.now) what.now }
        requires listed { AreListed (facts_of catalogue.now) self.now }
        ensures target { result ≡ target_of terminal what.now self.now.records }
        ensures work { let k = facts_of catalogue.now in
            meter.new ≡ after_looks (looks_to result
            (records_about k (key.Title (title_of_cancel k what.now)) self.now.records)) meter.old }
    {
        let numbers = self.index.of_title(title_of(catalogue, what));
        walking::newest(&self.slots, numbers, terminal, what, meter)
    }

    /// The number of the first later record that clashes with the changes of the record of this number, or
    /// `None` where none does. Of the later records that the changes touch each is looked at, as far as that
    /// one, once.
    pub fn first_clash(
        &self,
        catalogue: &Catalogue<A>,
        number: u64,
        meter: &mut Meter,
    ) -> Option<u64>
        requires there { IsSome (record_of number self.now.records) }
        requires of { AreOfCatalogue (facts_of catalogue.now) self.now }
        ensures clash { result
            ≡ first_clash (facts_of catalogue.now) (changes_of number self.now.records)
            (newer number self.now.records) }
        ensures work { let k = facts_of catalogue.now in
            let changes = changes_of number self.now.records in
            meter.new ≡ after_walk k changes (filter (touches k changes) (newer number self.now.records))
            meter.old }
    {
        the_first_clash_is_touched();
        let Some(target) = walking::find(&self.slots, number) else {
            unreachable!()
        };
        let changes = target.changes();
        let later = self.index.touched(catalogue, changes, number as u32);
        walking::first_clash(catalogue, changes, &self.slots, later, meter)
    }

    /// Takes the record of this number out, and corrects the later ones: what they noted becomes what is
    /// found without its changes. Of the later records it looks at those that its changes touch, each once.
    /// It takes no memory, and moves no other record.
    pub fn take_out(&mut self, catalogue: &Catalogue<A>, number: u64, meter: &mut Meter)
        requires there { IsSome (record_of number self.old.records) }
        requires of { AreOfCatalogue (facts_of catalogue.now) self.old }
        ensures records { self.new.records
            ≡ older number self.old.records
            ++ shift_records (facts_of catalogue.now) (changes_of number self.old.records)
            (newer number self.old.records) }
        ensures last { self.new.last ≡ self.old.last }
        ensures room { self.new.room ≡ self.old.room }
        ensures listed { AreListed (facts_of catalogue.now) self.new }
        ensures work { let k = facts_of catalogue.now in
            let changes = changes_of number self.old.records in
            meter.new ≡ after_looks (length (filter (touches k changes) (newer number self.old.records)))
            meter.old }
    {
        only_touched_records_shift();
        let Some(target) = walking::find(&self.slots, number) else {
            unreachable!()
        };
        let copy = copy_of(target.changes());
        let changes = copy.as_slice();
        let listed = CommandKeys::of(catalogue, &target.survivor().command);
        walking::take(&mut self.slots, number);
        let touched = self.index.touched(catalogue, changes, number as u32);
        walking::mend_each(catalogue, changes, &mut self.slots, touched, meter);
        self.index.take(listed, number as u32);
    }
}

/// A copy of the changes of a record, kept in the value itself.
fn copy_of(changes: &[Change]) -> ArrayVec<Change, 4>
    requires { length changes.now ≤ 4 }
    ensures { result.items ≡ changes.now }
{
    let mut copy = ArrayVec::new();
    let Ok(()) = copy.try_extend_from_slice(changes) else {
        unreachable!()
    };
    copy
}
