//! The record of one command.
#![tactic(auto)]

ghost use Rattle.std.specs.Prelude.{◌≡◌, ◌≤◌, length};
ghost use Rattle.hd_records.specs.Survivors.{survivor_of};

use hd_footprint::{Findings, Footprint};
use hd_rules::{Change, Finding, Reply, Survivor};
use std::marker::Model;

/// The record of a command that was just accepted, lent: who sent it with which number, what it replied, the
/// questions that it asked with their noted answers, and its changes (docs/desk-rules.md).
#[derive(Drop)]
pub struct NewRecord<'a> {
    survivor: Survivor,
    reply: Reply,
    findings: &'a Findings,
    changes: &'a Footprint,
}

impl<'a> Model for NewRecord<'a> {
    ghost use Rattle.hd_rules.specs.Record.{Record};

    ghost Value = { Record };

    ghost view = { λ r. record {
      number = r.survivor.number;
      terminal = r.survivor.terminal;
      command = r.survivor.command;
      reply = r.reply;
      findings = r.findings.now;
      changes = r.changes.now;
    } };
}

impl<'a> NewRecord<'a> {
    /// The record of a command that was accepted with this number. Nothing is copied but the command and its
    /// reply.
    pub fn new(
        survivor: Survivor,
        reply: Reply,
        findings: &'a Findings,
        changes: &'a Footprint,
    ) -> NewRecord<'a>
        ensures { result
            ≡ record {
              number = survivor.number;
              terminal = survivor.terminal;
              command = survivor.command;
              reply = reply;
              findings = findings.now;
              changes = changes.now;
            } }
    {
        NewRecord {
            survivor,
            reply,
            findings,
            changes,
        }
    }

    /// The command, its number and its terminal.
    pub(crate) fn survivor(&self) -> &Survivor
        ensures { result.now ≡ survivor_of self.now }
    {
        &self.survivor
    }

    /// What it changed, in order.
    pub(crate) fn changes(&self) -> &'a [Change]
        ensures changes { result.now ≡ self.now.changes }
        ensures few { length self.now.changes ≤ 4 }
    {
        self.changes.changes()
    }

    /// What it asked, in order, with the noted answers.
    pub(crate) fn findings(&self) -> &'a [Finding]
        ensures findings { result.now ≡ self.now.findings }
        ensures few { length self.now.findings ≤ 4 }
    {
        self.findings.findings()
    }

    /// What it replied.
    pub(crate) fn reply(&self) -> Reply
        ensures { result ≡ self.now.reply }
    {
        self.reply
    }
}

/// What is kept of an accepted command.
#[derive(Clone, Copy)]
pub struct RecordRef<'a> {
    /// The command, its number and its terminal.
    pub survivor: Survivor,
    /// What it replied.
    pub reply: Reply,
    /// What it asked, in order, with the noted answers.
    pub findings: &'a [Finding],
    /// What it changed, in order.
    pub changes: &'a [Change],
}
