//! How a command ends.
#![tactic(auto)]

ghost use Rattle.std.specs.Prelude.{◌≡◌, ◌≤◌, [], ℕ, List, OnErr, length, not};
ghost use Rattle.hd_rules.specs.declared.questions.Question.{Question};
ghost use Rattle.hd_rules.specs.Same.{real_changes as real, same_value};
ghost use Rattle.hd_rules.specs.Settle.{copy_becomes as change_of_copy, hold_becomes as change_of_hold};
ghost use Rattle.hd_rules.specs.Step.{accept};
ghost use Rattle.hd_desk.specs.Asking.{ending, told_with};
ghost use Rattle.hd_desk.specs.Desks.{desk_of, facts};

use crate::desk::Desk;
use crate::inquiry::Inquiry;
use hd_footprint::Footprint;
use hd_rules::{Cell, Change, CopyNo, CopyState, Hold, PatronNo, Refusal, Reply, TitleNo, Value};
use std::alloc::Allocator;

impl<'a, A: Allocator + Copy> Inquiry<'a, A> {
    /// The command is accepted, unless all numbers are given: what it says, and its changes are put into the
    /// footprint. A change to what is there already is no change. Where it is refused the footprint stays
    /// empty.
    pub(crate) fn accept(
        &self,
        number: u64,
        changes: &[Change],
        reply: Reply,
        footprint: &mut Footprint,
    ) -> Result<Reply, Refusal>
        requires few { length changes.now ≤ 4 }
        requires empty { footprint.old ≡ [] }
        ensures ends { (asked : List Question)
            → (told_with footprint.new result, asked) ≡ ending (facts self.now.desk) (desk_of self.now.desk)
            (accept (facts self.now.desk) number changes.now reply) asked }
        ensures untouched { OnErr result (footprint.new ≡ footprint.old) }
    {
        if self.desk.last_number() < number {
            return Err(Refusal::JournalFull);
        }
        put_real_changes(changes, footprint);
        Ok(reply)
    }
}

/// Puts the changes to something else into the footprint.
fn put_real_changes(changes: &[Change], footprint: &mut Footprint)
    requires few { length changes.now ≤ 4 }
    requires empty { footprint.old ≡ [] }
    ensures { footprint.new ≡ real changes.now }
{
    for change in changes {
        if is_real(change) {
            footprint.push(*change);
        }
    }
}

/// Whether the new value is another than the old one.
fn is_real(change: &Change) -> bool
    ensures { result ≡ not (same_value change.now.old change.now.new) }
{
    change.old != change.new
}

/// A change of the copy's cell.
pub(crate) fn copy_becomes(copy: CopyNo, old: &CopyState, new: &CopyState) -> Change
    ensures { result ≡ change_of_copy copy old.now new.now }
{
    Change {
        cell: Cell::Copy(copy),
        old: Value::Copy(*old),
        new: Value::Copy(*new),
    }
}

/// A change of the cell of a title and a patron.
pub(crate) fn hold_becomes(
    title: TitleNo,
    patron: PatronNo,
    old: &Option<Hold>,
    new: &Option<Hold>,
) -> Change
    ensures { result ≡ change_of_hold title patron old.now new.now }
{
    Change {
        cell: Cell::Hold(title, patron),
        old: Value::Hold(*old),
        new: Value::Hold(*new),
    }
}
