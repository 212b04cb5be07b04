//! The journal.

ghost use Rattle.std.specs.Prelude.{◌≡◌, ◌+◌, ◌<◌, [], None, IfErr, IfOk, OnErr, length, option_map};
ghost use Rattle.hd_catalogue.specs.Contents.{facts_of};
ghost use Rattle.hd_records.specs.Shown.{record_shown as shown_record};
ghost use Rattle.hd_journal.specs.Dependents.{IsFirstDependent};
ghost use Rattle.hd_journal.specs.Stored.{IsRecordOf};
ghost use Rattle.hd_rules.specs.Known.{IsKnownAction, IsKnownCancel};
ghost use Rattle.hd_rules.specs.Growth.{IsGrownDesk, IsGrownState, Grows};
ghost use Rattle.hd_rules.specs.Run.{run};
ghost use Rattle.hd_rules.specs.Sound.{Sound};
ghost use Rattle.hd_desk.specs.Desks.{Opens, contents, desk_of};
ghost use Rattle.hd_rules.specs.Messages.{IsKnownMessage, asking, message_of};
ghost use Rattle.hd_journal.specs.Books.{AddsTurn, IsLegalBook, MakesNoTurn, facts, state, turn_numbered};
ghost use Rattle.hd_journal.specs.Changing.{is_changing};
ghost use Rattle.hd_journal.specs.Faults.{IsMemory};
ghost use Rattle.hd_journal.specs.Shown.{turn_shown};
ghost use Rattle.hd_journal.specs.Working.{IsDependenceWork};

use crate::ask::OwnedAsk;
use crate::fault::TurnFault;
use crate::laws::{journal_laws, journals_grow};
use crate::survivor_run::SurvivorRun;
use crate::turn::{NewTurn, Turn, TurnRef};
use crate::turn_log::TurnLog;
use hd_desk::{Desk, Meter};
use hd_records::{RecordRef, Survivors};
use hd_rules::{Ask, Asked, Cancel, Command, CopyNo, SeatNo, TerminalNo};
use std::alloc::{Allocator, Global};
use std::marker::Model;

/// Every turn, and the desk of the commands that were not cancelled.
///
/// What a terminal asks is one call, and makes one turn or, out of memory, none. A message that equals
/// what is kept of the terminal's last changing message gets the same reply again, and nothing else changes
/// (docs/protocol.md, "Repeats").
///
/// Whatever turns it has come through, each reply is the turn machine's, the desk is that of the run of the
/// survivors, each with the reply that it got, and the headline holds of the turns: `legal` of each call
/// below.
pub struct Journal<A: Allocator = Global> {
    alloc: A,
    run: SurvivorRun<A>,
    log: TurnLog<A>,
    meter: Meter,
}

// Written out, so that a caller's proof sees one call and not the drop of each field.
impl<A: Allocator> Drop for Journal<A> {
    fn drop(self) {
        let Journal {
            alloc: _alloc,
            run: _run,
            log: _log,
            meter: _meter,
        } = self;
    }
}

impl<A: Allocator> Model for Journal<A> {
    ghost use Rattle.hd_journal.specs.Books.{Book, IsKept};
    ghost use Rattle.hd_journal.specs.TurnLog.{kept_by};

    ghost Value = { Book };

    ghost view = { λ journal. record {
      contents = journal.run.contents;
      turns = journal.log.turns;
      work = journal.meter;
    } };

    ghost invariant = { λ journal. IsKept journal.log.turns journal.run (kept_by journal.log) };
}

impl<A: Allocator + Copy> Journal<A> {
    /// A journal without turns, over a desk as `Desk::open` gave it. It counts its work by the meter, from
    /// there on. `inline` is never asked for memory: it comes with lists of at most four, which are kept in
    /// place.
    pub fn new(alloc: A, inline: Global, desk: Desk<A>, meter: Meter) -> Journal<A>
        requires desk { desk_of desk ≡ (facts_of (contents desk)).opening.desk }
        requires opens { Opens (facts_of (contents desk)) }
        ensures new { result ≡ record { contents = contents desk; turns = []; work = meter } }
        ensures legal { IsLegalBook result.contents result.turns }
    {
        journal_laws();
        prove!(0 < desk.catalogue().command_limit());
        Journal {
            alloc,
            run: SurvivorRun::new(alloc, inline, desk),
            log: TurnLog::new(alloc),
            meter,
        }
    }

    /// Goes on with a desk of another catalogue, to which its own has grown: all turns stay, word for word,
    /// and so does what is kept of them.
    pub fn grow(&mut self, desk: Desk<A>)
        requires grows { Grows (facts self.old) (facts_of (contents desk)) }
        requires grown { IsGrownDesk (facts self.old) (facts_of (contents desk)) (state self.old).desk
            (desk_of desk) }
        ensures contents { self.new.contents ≡ contents desk }
        ensures turns { self.new.turns ≡ self.old.turns }
        ensures work { self.new.work ≡ self.old.work }
        ensures state { IsGrownState (facts self.old) (facts self.new) (state self.old) (state self.new) }
        ensures legal { IsLegalBook self.new.contents self.new.turns }
    {
        journal_laws();
        journals_grow();
        let _range = desk.catalogue().opening();
        self.run.grow(desk);
    }

    /// One turn: what a terminal of a seat asks. What it names, and the terminal, are of the journal's
    /// catalogue.
    ///
    /// A command is accepted with the next number, or refused by the first refusal that applies. A
    /// cancellation takes back the newest surviving command of its kind that the terminal sent, and is
    /// refused where there is none (`NothingToCancel`) or where a later survivor depends on it (`Depends`,
    /// with the least number of one that does); the desk is then that of the run of the other survivors.
    /// Either may be a repeat. A query shows where the copy is and how many holds its title has; desk,
    /// survivors and what is kept stay.
    ///
    /// The turn is the ask itself with its reply: nothing is copied.
    ///
    /// # Errors
    /// `Memory`, and no other. There is no turn then.
    pub fn take(&mut self, ask: OwnedAsk<A>) -> Result<Turn, TurnFault>
        requires { IsKnownMessage (facts self.old) ask.message }
        ensures turn { IfOk result (AddsTurn self.old self.new ask.seat ask.message) }
        ensures legal { IsLegalBook self.new.contents self.new.turns }
        ensures why { IfErr result IsMemory }
        ensures err { OnErr result (MakesNoTurn self.old self.new) }
    {
        let new = self.take_new(ask)?;
        Ok(new.made)
    }

    /// One turn, as `take`, and whether it is changing.
    ///
    /// # Errors
    /// `Memory`, and no other. There is no turn then.
    pub fn take_new(&mut self, ask: OwnedAsk<A>) -> Result<NewTurn, TurnFault>
        requires { IsKnownMessage (facts self.old) ask.message }
        ensures turn { IfOk result (λ new. AddsTurn self.old self.new ask.seat ask.message new.made) }
        ensures changing { IfOk result (λ new.
            new.is_changing ≡ is_changing (state self.old) ask.message) }
        ensures legal { IsLegalBook self.new.contents self.new.turns }
        ensures why { IfErr result IsMemory }
        ensures err { OnErr result (MakesNoTurn self.old self.new) }
    {
        journal_laws();
        self.log.ready(ask.terminal())?;
        let repeated = self.log.kept_reply(&ask);
        if let Some(reply) = repeated {
            let again = ask.with_reply(reply);
            return Ok(NewTurn {
                made: self.log.add_repeat(again),
                is_changing: false,
            });
        }
        let is_changing = !ask.is_query();
        let reply = self.run.answer(&ask, &mut self.meter)?;
        let turn = ask.with_reply(reply);
        Ok(NewTurn {
            made: self.log.add(turn),
            is_changing,
        })
    }

    /// One turn: what a terminal of a seat asks, of which the journal makes its own copy. As `take`.
    pub(crate) fn take_copy(&mut self, ask: &Ask<'_>) -> Result<Turn, TurnFault>
        requires { IsKnownMessage (facts self.old) (message_of ask.now).message }
        ensures turn { IfOk result (AddsTurn self.old self.new (message_of ask.now).seat
            (message_of ask.now).message) }
        ensures legal { IsLegalBook self.new.contents self.new.turns }
        ensures why { IfErr result IsMemory }
        ensures err { OnErr result (MakesNoTurn self.old self.new) }
    {
        let own = OwnedAsk::of(self.alloc(), ask)?;
        self.take(own)
    }

    /// One turn: a terminal's command, with the message's line where that carried a sequence number. As
    /// `take`.
    pub fn submit(
        &mut self,
        terminal: TerminalNo,
        seat: SeatNo,
        command: &Command,
        line: Option<&[u8]>,
    ) -> Result<Turn, TurnFault>
        requires known { IsKnownAction (facts self.old) command.now.action }
        requires terminal { terminal < (facts self.old).terminals }
        ensures turn { IfOk result (AddsTurn self.old self.new seat
            (asking terminal (Asked.Command command.now) (option_map (λ bytes. bytes.now) line.entry))) }
        ensures legal { IsLegalBook self.new.contents self.new.turns }
        ensures why { IfErr result IsMemory }
        ensures err { OnErr result (MakesNoTurn self.old self.new) }
    {
        self.take_copy(&Ask::new(seat, terminal, Asked::Command(*command), line))
    }

    /// One turn: a terminal's cancellation, with the message's line where that carried a sequence number. As
    /// `take`.
    pub fn cancel(
        &mut self,
        terminal: TerminalNo,
        seat: SeatNo,
        what: &Cancel,
        line: Option<&[u8]>,
    ) -> Result<Turn, TurnFault>
        requires known { IsKnownCancel (facts self.old) what.now }
        requires terminal { terminal < (facts self.old).terminals }
        ensures turn { IfOk result (AddsTurn self.old self.new seat
            (asking terminal (Asked.Cancel what.now) (option_map (λ bytes. bytes.now) line.entry))) }
        ensures legal { IsLegalBook self.new.contents self.new.turns }
        ensures why { IfErr result IsMemory }
        ensures err { OnErr result (MakesNoTurn self.old self.new) }
    {
        self.take_copy(&Ask::new(seat, terminal, Asked::Cancel(*what), line))
    }

    /// One turn: a terminal's query of a copy. As `take`.
    pub fn query(
        &mut self,
        terminal: TerminalNo,
        seat: SeatNo,
        item: CopyNo,
    ) -> Result<Turn, TurnFault>
        requires known { item < (facts self.old).copies }
        requires terminal { terminal < (facts self.old).terminals }
        ensures turn { IfOk result (AddsTurn self.old self.new seat
            (asking terminal (Asked.Item item) None)) }
        ensures legal { IsLegalBook self.new.contents self.new.turns }
        ensures why { IfErr result IsMemory }
        ensures err { OnErr result (MakesNoTurn self.old self.new) }
    {
        self.take_copy(&Ask::new(seat, terminal, Asked::Item(item), None))
    }

    /// Where its memory comes from.
    fn alloc(&self) -> A
        ensures { IsLegalBook self.now.contents self.now.turns }
    {
        journal_laws();
        self.alloc
    }

    /// How many turns there are.
    pub fn front(&self) -> usize
        ensures count { result ≡ length self.now.turns }
        ensures legal { IsLegalBook self.now.contents self.now.turns }
    {
        journal_laws();
        self.log.len()
    }

    /// The turn of a number, from 1, or `None` where there is none.
    pub fn turn_at(&self, at: usize) -> Option<TurnRef<'_>>
        ensures { option_map turn_shown result ≡ turn_numbered self.now.turns at }
    {
        self.log.turn(at.checked_sub(1)?)
    }

    /// The last turn, or `None` before the first.
    pub fn last_turn(&self) -> Option<TurnRef<'_>>
        ensures { option_map turn_shown result
            ≡ turn_numbered self.now.turns (length self.now.turns) }
    {
        self.turn_at(self.log.len())
    }

    /// What is kept of the surviving command of a number, or `None` where no survivor has it: what it asked
    /// and noted, what it changed and replied, all in the run of the survivors before it.
    pub fn record(&self, number: u64) -> Option<RecordRef<'_>>
        ensures { IsRecordOf (facts self.now) (state self.now).survivors number
            (option_map shown_record result) }
    {
        self.run.record(number)
    }

    /// The number of the first later surviving command that depends on the surviving command of a number:
    /// what a cancellation of that would be refused by now. `None` where none depends on it, so that it could
    /// be taken back, or where no survivor has the number.
    ///
    /// Of the later records those that its changes touch are looked at, as far as that one, each once. The
    /// work is counted by the caller's own meter, and no memory is taken.
    pub fn first_dependent(&self, number: u64, meter: &mut Meter) -> Option<u64>
        ensures first { IsFirstDependent (facts self.now) (state self.now).survivors number result }
        ensures work { IsDependenceWork (facts self.now) (state self.now).survivors number
            meter.old meter.new }
    {
        self.run.first_dependent(number, meter)
    }

    /// The commands that were accepted and not cancelled, by number.
    pub fn survivors(&self) -> Survivors<'_>
        ensures { result ≡ (state self.now).survivors }
    {
        self.run.survivors()
    }

    /// The last number given, or that given before where none was.
    pub fn last(&self) -> u64
        ensures { result ≡ (state self.now).last }
    {
        self.run.last()
    }

    /// The desk: that of the run of the survivors. It is sound where the next number is given, so a later
    /// journal may begin with it (`hd_carry::carry`).
    pub fn desk(&self) -> &Desk<A>
        ensures contents { contents result.now ≡ self.now.contents }
        ensures state { desk_of result.now ≡ (state self.now).desk }
        ensures run { desk_of result.now ≡ run (facts self.now) (state self.now).survivors }
        ensures sound { Sound (facts_of (contents result.now)) ((state self.now).last + 1)
            (desk_of result.now) }
        ensures legal { IsLegalBook self.now.contents self.now.turns }
    {
        journal_laws();
        self.run.desk()
    }

    /// The work that was done: command steps, cells written, records looked at, and answers compared.
    pub fn meter(&self) -> &Meter
        ensures { result.now ≡ self.now.work }
    {
        &self.meter
    }
}
