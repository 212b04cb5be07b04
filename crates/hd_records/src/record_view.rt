//! A record, lent from where it is kept.
#![tactic(auto)]

ghost use Rattle.std.specs.Prelude.{◌≡◌, ◌≤◌, length};
ghost use Rattle.hd_records.specs.Laid.{record_of_kept};
ghost use Rattle.hd_records.specs.Shown.{record_shown};
ghost use Rattle.hd_records.specs.Survivors.{survivor_of};

use crate::record::RecordRef;
use crate::slots::RecordHead;
use hd_rules::{Change, Finding, Survivor};
use std::marker::Model;

/// A record, lent from its slot and the lists.
#[derive(Drop)]
pub(crate) struct RecordView<'a> {
    kept: &'a RecordHead,
    findings: &'a [Finding],
    changes: &'a [Change],
}

impl<'a> Model for RecordView<'a> {
    ghost use Rattle.std.specs.Prelude.{◌≤◌, length};
    ghost use Rattle.hd_rules.specs.Record.{Record};
    ghost use Rattle.hd_records.specs.Laid.{record_of_kept};

    ghost Value = { Record };

    ghost view = { λ l. record_of_kept l.kept.now l.findings.now l.changes.now };

    ghost invariant = { λ l. length l.changes.now ≤ 4 };
}

impl<'a> RecordView<'a> {
    /// The record of what a slot has, with these findings and changes.
    pub(crate) fn new(
        kept: &'a RecordHead,
        findings: &'a [Finding],
        changes: &'a [Change],
    ) -> RecordView<'a>
        requires { length changes.now ≤ 4 }
        ensures { result ≡ record_of_kept kept.now findings.now changes.now }
    {
        RecordView {
            kept,
            findings,
            changes,
        }
    }

    /// The command, its number and its terminal.
    pub(crate) fn survivor(&self) -> &'a Survivor
        ensures { result.now ≡ survivor_of self.now }
    {
        &self.kept.survivor
    }

    /// What it changed, in order.
    pub(crate) fn changes(&self) -> &'a [Change]
        ensures changes { result.now ≡ self.now.changes }
        ensures few { length self.now.changes ≤ 4 }
    {
        self.changes
    }

    /// What it asked, in order, with the noted answers.
    pub(crate) fn findings(&self) -> &'a [Finding]
        ensures { result.now ≡ self.now.findings }
    {
        self.findings
    }

    /// The record, part by part.
    pub(crate) fn show(&self) -> RecordRef<'a>
        ensures shown { record_shown result ≡ self.now }
        ensures few { length result.changes.now ≤ 4 }
    {
        RecordRef {
            survivor: self.kept.survivor,
            reply: self.kept.reply,
            findings: self.findings,
            changes: self.changes,
        }
    }
}
