//! Which command a cancellation takes back, by the records alone.

ghost use Rattle.hd_catalogue.specs.Contents.{facts_of};
ghost use Rattle.hd_rules.specs.Known.{IsKnownCancel};
ghost use Rattle.hd_rules.specs.Searches.{target};
ghost use Rattle.std.specs.Prelude.{IfErr, IfOk, OnErr};
ghost use Rattle.hd_records.specs.Survivors.{survivors_of};
ghost use Rattle.hd_journal.specs.Deciding.{AreKept, IsRefused, MayGo};
ghost use Rattle.hd_journal.specs.Dependents.{IsFirstDependent};
ghost use Rattle.hd_journal.specs.Working.{IsCancellationWork, IsDependenceWork};

use crate::laws::laws;
use hd_desk::{Catalogue, Meter};
use hd_records::Records;
use hd_rules::{Cancel, Refusal, TerminalNo};
use std::alloc::Allocator;

/// The number of the survivor that the terminal's cancellation takes back, or why it takes none back: there
/// is none, or a later one depends on it. The records that are looked at are counted, and the answers
/// compared.
pub(crate) fn decide<A: Allocator + Copy>(
    catalogue: &Catalogue<A>,
    records: &Records<A>,
    terminal: TerminalNo,
    what: &Cancel,
    meter: &mut Meter,
) -> Result<u64, Refusal>
    requires kept { AreKept (facts_of catalogue.now) records.now }
    requires known { IsKnownCancel (facts_of catalogue.now) what.now }
    ensures goes { IfOk result (λ number. MayGo (facts_of catalogue.now) terminal what.now records.now number
        meter.old meter.new) }
    ensures refused { IfErr result (IsRefused catalogue.now terminal what.now records.now) }
    ensures work { OnErr result (IsCancellationWork (facts_of catalogue.now)
        (survivors_of records.now.records) (target terminal what.now (survivors_of records.now.records))
        meter.old meter.new) }
{
    laws();
    prove!(0 < catalogue.command_limit());
    let Some(target) = records.newest(catalogue, terminal, what, meter) else {
        return Err(Refusal::NothingToCancel);
    };
    match records.first_clash(catalogue, target, meter) {
        Some(number) => Err(Refusal::Depends { number }),
        None => Ok(target),
    }
}

/// The number of the first later survivor that depends on the survivor of a number: what a cancellation of
/// that would be refused by. `None` where none depends on it, or no survivor has the number. The records that
/// are looked at are counted, and the answers compared.
pub(crate) fn first_dependent<A: Allocator + Copy>(
    catalogue: &Catalogue<A>,
    records: &Records<A>,
    number: u64,
    meter: &mut Meter,
) -> Option<u64>
    requires { AreKept (facts_of catalogue.now) records.now }
    ensures first { IsFirstDependent (facts_of catalogue.now) (survivors_of records.now.records) number
        result }
    ensures work { IsDependenceWork (facts_of catalogue.now) (survivors_of records.now.records) number
        meter.old meter.new }
{
    laws();
    prove!(0 < catalogue.command_limit());
    match records.get(number) {
        Some(_) => records.first_clash(catalogue, number, meter),
        None => None,
    }
}
