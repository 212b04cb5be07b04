//! The commands that survive, and the desk of their run.

ghost use Rattle.std.specs.Prelude.{◌≡◌, ◌+◌, ◌<◌, ◌≤◌, [], ℕ, None, Option, IfOk, OnErr, option_map};
ghost use Rattle.hd_catalogue.specs.Contents.{facts_of};
ghost use Rattle.hd_rules.specs.Known.{IsKnown, IsKnownAction, IsKnownCancel};
ghost use Rattle.hd_rules.specs.Run.{outcome_of, run};
ghost use Rattle.hd_rules.specs.Searches.{target};
ghost use Rattle.hd_rules.specs.Sound.{Sound};
ghost use Rattle.hd_rules.specs.Turns.{Kept, item_view, next_survivor};
ghost use Rattle.hd_desk.specs.Desks.{Opens, contents, desk_of, facts};
ghost use Rattle.hd_journal.specs.SurvivorRun.{IsCarriedOut, Submitted, Withdrawn, state_alone};
ghost use Rattle.hd_records.specs.Shown.{record_shown};
ghost use Rattle.hd_journal.specs.Dependents.{IsFirstDependent};
ghost use Rattle.hd_journal.specs.Growing.{IsGrownTo, over};
ghost use Rattle.hd_journal.specs.Stored.{IsRecordOf};
ghost use Rattle.hd_journal.specs.Working.{IsCancellationWork, IsDependenceWork, IsWork, OnlyRise};
ghost use Rattle.hd_journal.specs.Working.{command_work};

use crate::ask::OwnedAsk;
use crate::deciding::{decide, first_dependent};
use crate::laws::{journals_grow, laws};
use hd_desk::{Desk, Done, Meter, Refused};
use hd_inverse::undo;
use hd_records::{NewRecord, RecordRef, Records, Survivors};
use hd_rules::{Asked, Cancel, Command, CopyNo, Reply, Survivor, TerminalNo, TurnReply};
use std::alloc::{AllocError, Allocator, Global};
use std::marker::Model;

/// The records of the survivors with the last number given, and the desk of their run.
#[derive(Drop)]
pub(crate) struct SurvivorRun<A: Allocator> {
    desk: Desk<A>,
    records: Records<A>,
    /// The room for what a command does, until its record is kept.
    done: Done,
}

impl<A: Allocator> Model for SurvivorRun<A> {
    ghost use Rattle.hd_catalogue.specs.Contents.{facts_of};
    ghost use Rattle.hd_desk.specs.Desks.{contents, desk_of};
    ghost use Rattle.hd_records.specs.RecordsValue.{AreListed};
    ghost use Rattle.hd_records.specs.Survivors.{survivors_of};
    ghost use Rattle.hd_journal.specs.SurvivorRun.{SurvivorRun, LeadsTo};
    ghost use Rattle.hd_journal.specs.Stored.{AreStored};

    ghost Value = { SurvivorRun };

    ghost view = { λ r. record {
      contents = contents r.desk;
      survivors = survivors_of r.records.records;
      last = r.records.last;
    } };

    ghost invariant = { λ r. LeadsTo
        (record {
          contents = contents r.desk;
          survivors = survivors_of r.records.records;
          last = r.records.last;
        })
        (desk_of r.desk)
        × AreStored (facts_of (contents r.desk)) r.records.records
        × AreListed (facts_of (contents r.desk)) r.records };
}

impl<A: Allocator + Copy> SurvivorRun<A> {
    /// No survivors, at the desk that the catalogue's journal opens with. `inline` is never asked for memory:
    /// it comes with lists of at most four changes and findings, which are kept in place.
    pub(crate) fn new(alloc: A, inline: Global, desk: Desk<A>) -> SurvivorRun<A>
        requires desk { desk_of desk ≡ (facts desk).opening.desk }
        requires opens { Opens (facts desk) }
        ensures { result
            ≡ record { contents = contents desk; survivors = []; last = (facts desk).opening.last } }
    {
        let before = desk.catalogue().last_before();
        SurvivorRun {
            desk,
            records: Records::new(alloc, before),
            done: Done::new(inline),
        }
    }

    /// The desk, which is sound where the next number is given.
    pub(crate) fn desk(&self) -> &Desk<A>
        ensures contents { contents result.now ≡ self.now.contents }
        ensures run { desk_of result.now ≡ run (facts_of self.now.contents) self.now.survivors }
        ensures sound { Sound (facts_of self.now.contents) (self.now.last + 1) (desk_of result.now) }
    {
        laws();
        &self.desk
    }

    /// Goes on with a desk of another catalogue, to which its own has grown. Nothing is walked.
    pub(crate) fn grow(&mut self, desk: Desk<A>)
        requires { IsGrownTo self.old (contents desk) (desk_of desk) }
        ensures { self.new ≡ over (contents desk) self.old }
    {
        journals_grow();
        self.desk = desk;
    }

    /// The survivors, by number.
    pub(crate) fn survivors(&self) -> Survivors<'_>
        ensures { result ≡ self.now.survivors }
    {
        self.records.survivors()
    }

    /// The record of the survivor of a number, or `None` where there is none.
    pub(crate) fn record(&self, number: u64) -> Option<RecordRef<'_>>
        ensures { IsRecordOf (facts_of self.now.contents) self.now.survivors number
            (option_map record_shown result) }
    {
        laws();
        self.records.get(number)
    }

    /// The number of the first later survivor that depends on the survivor of a number, or `None` where none
    /// does, or no survivor has the number. The work is counted.
    pub(crate) fn first_dependent(&self, number: u64, meter: &mut Meter) -> Option<u64>
        ensures first { IsFirstDependent (facts_of self.now.contents) self.now.survivors number result }
        ensures work { IsDependenceWork (facts_of self.now.contents) self.now.survivors number
            meter.old meter.new }
    {
        first_dependent(self.desk.catalogue(), &self.records, number, meter)
    }

    /// The last number given.
    pub(crate) fn last(&self) -> u64
        ensures { result ≡ self.now.last }
    {
        self.records.last()
    }

    /// Carries out what a terminal asks that is no repeat, and counts the work: its reply.
    pub(crate) fn answer(
        &mut self,
        ask: &OwnedAsk<A>,
        meter: &mut Meter,
    ) -> Result<TurnReply, AllocError>
        requires known { IsKnown (facts_of self.old.contents) ask.now.message.asked }
        ensures answered { IfOk result (λ reply. IsCarriedOut self.old
            ask.now.message.terminal ask.now.message.asked reply self.new) }
        ensures work { IfOk result (λ _. IsWork (facts_of self.old.contents) (state_alone self.old)
            ask.now.message.terminal ask.now.message.asked None meter.old meter.new) }
        ensures contents { self.new.contents ≡ self.old.contents }
        ensures last { self.new.last ≤ self.old.last + 1 }
        ensures err { OnErr result (self.new ≡ self.old) }
        ensures rise { OnErr result (OnlyRise meter.old meter.new) }
    {
        match &ask.asked {
            Asked::Command(command) => self.submit(ask.terminal(), command, meter),
            Asked::Cancel(what) => self.cancel(ask.terminal(), what, meter),
            Asked::Item(copy) => Ok(self.item(*copy)),
        }
    }

    /// What the desk shows of a copy.
    fn item(&self, item: CopyNo) -> TurnReply
        requires { item < (facts_of self.now.contents).copies }
        ensures { result
            ≡ TurnReply.Item
            (item_view (facts_of self.now.contents)
            (run (facts_of self.now.contents) self.now.survivors) item) }
    {
        TurnReply::Item(self.desk.item(item))
    }

    /// Does the terminal's command with the next number, or reports why it is refused.
    fn submit(
        &mut self,
        terminal: TerminalNo,
        command: &Command,
        meter: &mut Meter,
    ) -> Result<TurnReply, AllocError>
        requires known { IsKnownAction (facts_of self.old.contents) command.now.action }
        ensures submitted { IfOk result (λ reply. Submitted self.old terminal command.now reply self.new) }
        ensures work { IfOk result (λ _. meter.new ≡ command_work
            (outcome_of (facts_of self.old.contents) (state_alone self.old).desk
            (next_survivor (state_alone self.old) terminal command.now))
            meter.old) }
        ensures rise { OnErr result (OnlyRise meter.old meter.new) }
        ensures contents { self.new.contents ≡ self.old.contents }
        ensures last { self.new.last ≤ self.old.last + 1 }
        ensures err { OnErr result (self.new ≡ self.old) }
    {
        laws();
        self.records.ready(self.desk.catalogue(), command)?;
        let number = self.records.last() + 1;
        match self.desk.apply(number, command, meter, &mut self.done) {
            Ok(reply) => {
                let survivor = Survivor {
                    number,
                    terminal,
                    command: *command,
                };
                let record = record_of(survivor, &reply, &self.done);
                self.records.push(self.desk.catalogue(), &record);
                Ok(TurnReply::Done { number, reply })
            }
            Err(Refused::Rule(refusal)) => Ok(TurnReply::Refused(refusal)),
            Err(Refused::Memory) => Err(AllocError),
        }
    }

    /// Takes back what the terminal's cancellation takes back, or reports why it can't. It decides from the
    /// records alone. Only putting old values back can need memory, and that comes before any change.
    fn cancel(
        &mut self,
        terminal: TerminalNo,
        what: &Cancel,
        meter: &mut Meter,
    ) -> Result<TurnReply, AllocError>
        requires { IsKnownCancel (facts_of self.old.contents) what.now }
        ensures cancelled { IfOk result (λ reply. Withdrawn self.old terminal what.now reply self.new) }
        ensures work { IfOk result (λ _. IsCancellationWork (facts_of self.old.contents) self.old.survivors
            (target terminal what.now self.old.survivors) meter.old meter.new) }
        ensures rise { OnErr result (OnlyRise meter.old meter.new) }
        ensures contents { self.new.contents ≡ self.old.contents }
        ensures last { self.new.last ≡ self.old.last }
        ensures err { OnErr result (self.new ≡ self.old) }
    {
        laws();
        let target = match decide(self.desk.catalogue(), &self.records, terminal, what, meter) {
            Ok(target) => target,
            Err(refusal) => return Ok(TurnReply::Refused(refusal)),
        };
        let Some(kept) = self.records.get(target) else {
            unreachable!()
        };
        undo(&mut self.desk, kept.changes, meter)?;
        self.records.take_out(self.desk.catalogue(), target, meter);
        Ok(TurnReply::Cancelled { number: target })
    }
}

/// The record of an accepted command, lent: its findings and changes stay where they are.
fn record_of<'a>(survivor: Survivor, reply: &Reply, done: &'a Done) -> NewRecord<'a>
    ensures { result
        ≡ record {
          number = survivor.number;
          terminal = survivor.terminal;
          command = survivor.command;
          reply = reply.now;
          findings = done.now.findings;
          changes = done.now.changes;
        } }
{
    let (changes, findings) = done.parts();
    NewRecord::new(survivor, *reply, findings, changes)
}
