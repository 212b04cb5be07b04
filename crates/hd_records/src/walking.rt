//! Walks over records by their numbers.
#![tactic(auto)]

ghost use Rattle.std.specs.Prelude.{◌≡◌, ◌≤◌, ◌∷◌, [], ◌-◌, None, IsSome, length, slice_set};
ghost use Rattle.hd_catalogue.specs.Contents.{facts_of};
ghost use Rattle.hd_clash.specs.Clash.{first_clash};
ghost use Rattle.hd_clash.specs.Law.{EachCellIsKnown};
ghost use Rattle.hd_clash.specs.Records.{EachRecordIsKnown};
ghost use Rattle.hd_index.specs.Union.{union};
ghost use Rattle.hd_rules.specs.Run.{Rising};
ghost use Rattle.hd_records.specs.Looks.{after_looks, looks_to, after_walk};
ghost use Rattle.hd_records.specs.Slots.{records_at, shift_at, slot_of};
ghost use Rattle.hd_records.specs.Survivors.{survivors_of, target_of};

use crate::all_slots::AllSlots;
use crate::record_view::RecordView;
use crate::targets::is_target;
use hd_catalogue::Catalogue;
use hd_clash::has_clash;
use hd_index::{Union, unions_have_each_once};
use hd_meter::{Count, Meter};
use hd_rules::{Cancel, Change, TerminalNo, the_target_is_the_newest};
use std::alloc::Allocator;

/// The record of a number, or `None` where there is none. It is in the number's slot.
pub(crate) fn find<A: Allocator>(slots: &AllSlots<A>, number: u64) -> Option<RecordView<'_>>
    ensures { result ≡ slot_of number slots.now.items }
{
    let place = number.checked_sub(1)?;
    slots.get(place as usize)
}

/// Takes the record of a number out of its slot.
pub(crate) fn take<A: Allocator>(slots: &mut AllSlots<A>, number: u64)
    requires { IsSome (slot_of number slots.old.items) }
    ensures slots { slots.new.items ≡ slice_set slots.old.items (number - 1) None }
    ensures room { slots.new.room ≡ slots.old.room }
{
    slots.empty(number as usize - 1);
}

/// Of the records of these numbers the number of the newest whose command such a cancellation by the terminal
/// takes back.
pub(crate) fn newest<A: Allocator>(
    slots: &AllSlots<A>,
    numbers: &[u32],
    terminal: TerminalNo,
    what: &Cancel,
    meter: &mut Meter,
) -> Option<u64>
    requires { Rising 1 (survivors_of (records_at numbers.now slots.now.items)) }
    ensures target { result ≡ target_of terminal what.now (records_at numbers.now slots.now.items) }
    ensures work { meter.new
        ≡ after_looks (looks_to result (records_at numbers.now slots.now.items)) meter.old }
{
    the_target_is_the_newest();
    for place in (0..numbers.len()).rev() {
        if let Some(stored) = find(slots, u64::from(numbers[place])) {
            meter.add(Count::Look);
            if is_target(terminal, what, stored.survivor()) {
                return Some(stored.survivor().number);
            }
        }
    }
    None
}

/// Of the records of these numbers that of the first with a finding that clashes with the changes.
pub(crate) fn first_clash<A: Allocator + Copy>(
    catalogue: &Catalogue<A>,
    changes: &[Change],
    slots: &AllSlots<A>,
    numbers: Union<'_>,
    meter: &mut Meter,
) -> Option<u64>
    requires few { length changes.now ≤ 4 }
    requires cells { EachCellIsKnown (facts_of catalogue.now) changes.now }
    requires known { EachRecordIsKnown (facts_of catalogue.now) (records_at (union numbers) slots.now.items) }
    ensures clash { result ≡ first_clash (facts_of catalogue.now) changes.now
        (records_at (union numbers.entry) slots.now.items) }
    ensures work { meter.new ≡ after_walk (facts_of catalogue.now) changes.now
        (records_at (union numbers.entry) slots.now.items) meter.old }
{
    for number in numbers {
        if let Some(later) = find(slots, u64::from(number)) {
            meter.add(Count::Look);
            if has_clash(catalogue, changes, later.findings(), meter) {
                return Some(later.survivor().number);
            }
        }
    }
    None
}

/// Mends the records of these numbers, each of them in place.
pub(crate) fn mend_each<A: Allocator + Copy>(
    catalogue: &Catalogue<A>,
    changes: &[Change],
    slots: &mut AllSlots<A>,
    numbers: Union<'_>,
    meter: &mut Meter,
)
    requires few { length changes.now ≤ 4 }
    requires cells { EachCellIsKnown (facts_of catalogue.now) changes.now }
    requires known { EachRecordIsKnown (facts_of catalogue.now)
        (records_at (union numbers) slots.old.items) }
    ensures slots { slots.new.items
        ≡ shift_at (facts_of catalogue.now) changes.now (union numbers.entry) 0 slots.old.items }
    ensures room { slots.new.room ≡ slots.old.room }
    ensures work { meter.new ≡ after_looks (length (union numbers.entry)) meter.old }
{
    unions_have_each_once();
    for number in numbers {
        meter.add(Count::Look);
        mend_one(catalogue, changes, slots, number);
    }
}

/// Mends the record of a number, if there is one.
fn mend_one<A: Allocator + Copy>(
    catalogue: &Catalogue<A>,
    changes: &[Change],
    slots: &mut AllSlots<A>,
    number: u32,
)
    requires few { length changes.now ≤ 4 }
    requires cells { EachCellIsKnown (facts_of catalogue.now) changes.now }
    requires known { EachRecordIsKnown (facts_of catalogue.now)
        (records_at (number ∷ []) slots.old.items) }
    ensures slots { slots.new.items
        ≡ shift_at (facts_of catalogue.now) changes.now (number ∷ []) 0 slots.old.items }
    ensures room { slots.new.room ≡ slots.old.room }
{
    if 0 < number {
        let place = number as usize - 1;
        if place < slots.len() {
            slots.mend(catalogue, changes, place);
        }
    }
}
