//! Commands.
#![tactic(auto)]

ghost use Rattle.std.specs.Prelude.{◌≡◌, ◌<◌, ℕ, Err, MatchResult, OnErr, OnOk, [], length};
ghost use Rattle.hd_rules.specs.Known.{IsKnownAction};
ghost use Rattle.hd_rules.specs.Sound.{Sound};
ghost use Rattle.hd_rules.specs.Step.{plan};
ghost use Rattle.hd_meter.specs.Meter.{with_one_more};
ghost use Rattle.hd_meter.specs.declared.count.Count.TheVariants.{Step};
ghost use Rattle.hd_desk.specs.Accepting.{IsAccepted, IsDoneBy};
ghost use Rattle.hd_desk.specs.Asking.{ending_of, told_with};
ghost use Rattle.hd_inverse.specs.Work.{after_writes};
ghost use Rattle.hd_desk.specs.Desks.{contents, desk_of, facts, outcome_at};
ghost use Rattle.hd_desk.specs.Telling.{IsItsOutcome};

use crate::desk::Desk;
use crate::done::Done;
use crate::holding::Wishes;
use crate::inquiry::Inquiry;
use crate::laws::laws;
use crate::lending::Lending;
use crate::refused::Refused;
use hd_footprint::{Count, Footprint, Meter};
use hd_inverse::Cells;
use hd_rules::{Action, Command, Hold, Refusal, Reply};
use std::alloc::Allocator;

impl<A: Allocator + Copy> Desk<A> {
    /// Does a command. Its number is above every stamp of the desk, and what it names is of the desk's
    /// catalogue. What it did is written into `done`, whatever that had before; where it isn't accepted, what
    /// is there then means nothing.
    ///
    /// Out of memory comes after every refusal, and only where `ready` would lack room for the changes.
    /// Neither changes anything but the meter. That counts one command step, and one cell written per change.
    ///
    /// The changes can be taken back at once ([`undo`](hd_inverse::undo)), and then the desk is as before.
    pub fn apply(
        &mut self,
        number: u64,
        command: &Command,
        meter: &mut Meter,
        done: &mut Done,
    ) -> Result<Reply, Refused>
        requires known { IsKnownAction (facts self.old) command.now.action }
        requires sound { Sound (facts self.old) number (desk_of self.old) }
        ensures outcome { IsItsOutcome self.old (outcome_at self.old number command.now) done.new result }
        ensures did { OnOk result (IsDoneBy self.old self.new number command.now done.new) }
        ensures unchanged { OnErr result (desk_of self.new ≡ desk_of self.old) }
        ensures contents { contents self.new ≡ contents self.old }
        ensures sound { (n : ℕ) → number < n → Sound (facts self.new) n (desk_of self.new) }
        ensures counted { MatchResult result
            (λ _. meter.new ≡ after_writes (length done.new.changes) (with_one_more meter.old Step))
            (λ _. meter.new ≡ with_one_more meter.old Step) }
    {
        meter.add(Count::Step);
        let reply = match self.decide(number, command, done) {
            Ok(reply) => reply,
            Err(refusal) => return Err(Refused::Rule(refusal)),
        };
        if self.ready(done.changes()).is_err() {
            return Err(Refused::Memory);
        }
        self.make(done.changes(), meter);
        Ok(reply)
    }

    /// What the command does here and what it asks, and what it says, or why it is refused. It changes no
    /// cell.
    fn decide(&self, number: u64, command: &Command, done: &mut Done) -> Result<Reply, Refusal>
        requires known { IsKnownAction (facts self.now) command.now.action }
        requires sound { Sound (facts self.now) number (desk_of self.now) }
        ensures { MatchResult result (IsAccepted self.now number command.now done.new)
            (λ refusal. outcome_at self.now number command.now ≡ Err refusal) }
    {
        laws();
        done.changes.clear();
        let mut inquiry = Inquiry::new(done.changes.allocator(), self);
        let reply = inquiry.follow(number, command, &mut done.changes)?;
        done.findings = inquiry.into_findings();
        Ok(reply)
    }
}

impl<'a, A: Allocator + Copy> Inquiry<'a, A> {
    /// Follows the command, question by question, to its end. Nothing was asked before. Where it is refused
    /// the footprint stays empty.
    pub(crate) fn follow(
        &mut self,
        number: u64,
        command: &Command,
        footprint: &mut Footprint,
    ) -> Result<Reply, Refusal>
        requires known { IsKnownAction (facts self.old.desk) command.now.action }
        requires none { self.old.asked ≡ [] }
        requires empty { footprint.old ≡ [] }
        ensures desk { self.new.desk ≡ self.old.desk }
        ensures ends { (told_with footprint.new result, self.new.asked)
            ≡ ending_of self.old (plan (facts self.old.desk) number command.now) }
        ensures untouched { OnErr result (footprint.new ≡ footprint.old) }
    {
        let day = command.day;
        match command.action {
            Action::Checkout {
                patron,
                copy,
                may_renew,
            } => {
                let message = Lending {
                    number,
                    patron,
                    copy,
                    day,
                };
                let old = self.copy(copy);
                self.checkout(&message, may_renew, &old, footprint)
            }
            Action::OffLine { patron, copy, due } => self.off_line(
                number, patron, copy, due, footprint,
            ),
            Action::Checkin { copy, branch } => self.checkin(number, copy, branch, day, footprint),
            Action::Add {
                patron,
                title,
                kind,
                pickup,
                expiry,
            } => {
                let hold = Hold {
                    patron,
                    stamp: number,
                    kind,
                    pickup,
                    expiry,
                    copy: None,
                };
                let held = self.hold(title, patron);
                self.add(title, &hold, day, &held, footprint)
            }
            Action::Delete { patron, title } => {
                let held = self.hold(title, patron);
                self.delete(number, title, patron, day, &held, footprint)
            }
            Action::Change {
                patron,
                title,
                kind,
                pickup,
                expiry,
            } => {
                let wishes = Wishes {
                    kind,
                    pickup,
                    expiry,
                };
                let held = self.hold(title, patron);
                self.change(number, title, patron, &wishes, day, &held, footprint)
            }
            Action::Renewal { patron, copy } => {
                let message = Lending {
                    number,
                    patron,
                    copy,
                    day,
                };
                let old = self.copy(copy);
                self.renew(&message, &old, footprint)
            }
        }
    }
}
