//! The findings of records, corrected in place.
#![tactic(auto)]

ghost use Rattle.std.specs.Prelude.{◌≡◌, ◌≤◌, ◌+◌, ◌++◌, drop, length, take, vec_capacity, vec_len};
ghost use Rattle.hd_catalogue.specs.Contents.{facts_of};
ghost use Rattle.hd_clash.specs.Counting.{EachIsSmall};
ghost use Rattle.hd_clash.specs.Law.{EachCellIsKnown};
ghost use Rattle.hd_clash.specs.Shift.{shift_each};
ghost use Rattle.hd_records.specs.Laid.{have_count};

use crate::slots::Span;
use hd_catalogue::Catalogue;
use hd_clash::{is_count, shift_finding};
use hd_rules::{Change, Finding};
use std::alloc::Allocator;

/// Whether a count is noted of one of the questions.
pub(crate) fn has_count(findings: &[Finding]) -> bool
    ensures { result ≡ have_count findings.now }
{
    for finding in findings {
        if is_count(&finding.question) {
            return true;
        }
    }
    false
}

/// The noted counts become those that are found without the changes, where none clashes with them.
fn mend_each<A: Allocator + Copy>(
    catalogue: &Catalogue<A>,
    changes: &[Change],
    findings: &mut [Finding],
)
    requires few { length changes.now ≤ 4 }
    requires known { EachCellIsKnown (facts_of catalogue.now) changes.now }
    requires small { EachIsSmall findings.old }
    ensures { findings.new ≡ shift_each (facts_of catalogue.now) changes.now findings.old }
{
    for at in 0..findings.len() {
        let finding = findings[at];
        if is_count(&finding.question) {
            findings[at] = shift_finding(catalogue, changes, &finding);
        }
    }
}

/// The same of the findings of one record, in the list of all.
pub(crate) fn mend_at<A: Allocator + Copy, B: Allocator>(
    catalogue: &Catalogue<A>,
    changes: &[Change],
    findings: &mut Vec<Finding, B>,
    span: Span,
)
    requires few { length changes.now ≤ 4 }
    requires known { EachCellIsKnown (facts_of catalogue.now) changes.now }
    requires there { span.first + span.count ≤ vec_len findings.old }
    requires small { EachIsSmall (take span.count (drop span.first findings.old.items)) }
    ensures items { findings.new.items
        ≡ take span.first findings.old.items
        ++ (shift_each (facts_of catalogue.now) changes.now
        (take span.count (drop span.first findings.old.items))
        ++ drop span.count (drop span.first findings.old.items)) }
    ensures len { vec_len findings.new ≡ vec_len findings.old }
    ensures capacity { vec_capacity findings.new ≡ vec_capacity findings.old }
{
    let first = span.first as usize;
    let end = first + span.count as usize;
    mend_each(catalogue, changes, findings.slice_mut(first..end));
}
