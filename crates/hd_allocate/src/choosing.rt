//! Which of the holds of a title a copy is for.
ghost use Rattle.std.specs.Prelude.{◌≡◌, ℕ, filter, find, IfSome};
ghost use Rattle.std.specs.Option.{option_copied};
ghost use Rattle.hd_rules.specs.Facts.{Facts};
ghost use Rattle.hd_rules.specs.Desk.{Desk};
ghost use Rattle.hd_rules.specs.Find.{choice, earlier};
ghost use Rattle.hd_rules.specs.Choose.{has_expired, is_local, precedes};
ghost use Rattle.hd_queue.specs.Wanted.{is_picked_up_at};
ghost use Rattle.hd_allocate.specs.Choosing.{front, is_open, IsAt, Waits};

use crate::facts::CopyFacts;
use hd_date::Day;
use hd_queue::{QueueView, Waiting};
use hd_rules::{BranchNo, Hold, choice_is_the_first_candidate};
use std::alloc::Allocator;

/// The hold that a copy is for, at a branch on a day (docs/desk-rules.md, "Choice"): of the holds of its
/// title that have no copy, admit this one and haven't expired, the first. They come by stamp; where the
/// title has local priority, those that are picked up at the branch come before the others.
///
/// The queue is that of the copy's title. Each of its three lists of holds without a copy is gone over until
/// a hold is found that hasn't expired; where the title has local priority, first those that are picked up
/// at the branch. Those of the third all have one pickup, the copy's home, so it is gone over once.
pub fn choice<'a, A: Allocator>(
    queue: &QueueView<'a, A>,
    copy: &CopyFacts,
    at: BranchNo,
    day: Day,
) -> Option<&'a Hold>
    ensures chosen { (k : Facts) (d : Desk) → IsAt k d queue.now copy.now
        → option_copied result ≡ choice k d copy.now.copy at day }
    ensures waits { IfSome result (λ h. Waits queue.now h.now) }
{
    choice_is_the_first_candidate();
    let any = front(copy.priority, queue.any_at(at), queue.any(), day);
    let named = front(
        copy.priority,
        queue.for_copy_at(copy.copy, at),
        queue.for_copy(copy.copy),
        day,
    );
    let home = first_open(queue.at_branch(copy.home), day);
    let either = earlier(copy.priority, at, any, named);
    earlier(copy.priority, at, either, home)
}

/// The first hold of a list that hasn't expired; where the title has priority, of the local ones, if there is
/// one: those of the list that are picked up at the branch.
fn front<'a, A: Allocator>(
    priority: bool,
    local: Waiting<'a, A>,
    all: Waiting<'a, A>,
    day: Day,
) -> Option<&'a Hold>
    ensures { (at : ℕ) → local.entry ≡ filter (is_picked_up_at at) all.entry
        → option_copied result ≡ front priority at day all.entry }
{
    if priority {
        if let Some(hold) = first_open(local, day) {
            return Some(hold);
        }
    }
    first_open(all, day)
}

/// The first of these holds that hasn't expired.
fn first_open<'a, A: Allocator>(waiting: Waiting<'a, A>, day: Day) -> Option<&'a Hold>
    ensures { option_copied result ≡ find (is_open day) waiting.entry }
{
    for hold in waiting {
        if !has_expired(hold.expiry, day) {
            return Some(hold);
        }
    }
    None
}

/// The one of two holds that comes first.
fn earlier<'a>(
    priority: bool,
    at: BranchNo,
    one: Option<&'a Hold>,
    other: Option<&'a Hold>,
) -> Option<&'a Hold>
    ensures { option_copied result ≡ earlier priority at (option_copied one.entry)
        (option_copied other.entry) }
{
    let Some(g) = one else { return other };
    let Some(h) = other else { return one };
    if precedes(priority, at, h, g) {
        other
    } else {
        one
    }
}

/// Whether a hold comes before another.
fn precedes(priority: bool, at: BranchNo, g: &Hold, h: &Hold) -> bool
    ensures { result ≡ precedes priority at g.now h.now }
{
    let local = is_local(priority, at, g);
    if local == is_local(priority, at, h) {
        g.stamp < h.stamp
    } else {
        local
    }
}

/// Whether a hold comes before those that are picked up elsewhere.
fn is_local(priority: bool, at: BranchNo, hold: &Hold) -> bool
    ensures { result ≡ is_local priority at hold.now }
{
    priority && hold.pickup == at
}

/// Whether a hold whose last day is this, if it has one, has expired on a day: its last day is before that.
pub fn has_expired(expiry: Option<Day>, day: Day) -> bool
    ensures { result ≡ has_expired expiry day }
{
    match expiry {
        Some(last) => last < day,
        None => false,
    }
}
