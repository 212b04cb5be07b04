//! The row that is kept of a turn, as it is read.

ghost use Rattle.std.specs.Prelude.{◌≡◌, ◌⊎◌, ℕ, IfErr, IfOk, OnOk};
ghost use Rattle.hd_journal.specs.Books.{facts};
ghost use Rattle.hd_rules.specs.Messages.{IsKnownMessage};
ghost use Rattle.hd_turn_row.specs.Rows.{HasOutcome, IsRowOf};
ghost use Rattle.hd_turn_store.specs.Rows.{kept};
ghost use Rattle.hd_journal_file.specs.Restored.{DiffersFirst, RefusesRow};
ghost use Rattle.hd_journal_file.specs.declared.fault.OutcomeColumn.{OutcomeColumn as Column};

use crate::fault::{OutcomeColumn, RestoreFault};
use hd_journal::{Journal, OwnedAsk, TurnReply};
use hd_turn_row::{OutcomeColumns, ask_of, replies_of_one_column_are_one};
use hd_turn_store::{FORMAT, TurnRow};
use std::alloc::{Allocator, Global};

/// What a row asks of a journal, as that takes it. `at` is the row's number.
///
/// # Errors
/// `NoTurn` and `Memory`.
pub(crate) fn own_ask<A: Allocator + Copy>(
    journal: &Journal<A>,
    alloc: A,
    row: &TurnRow<'_>,
    at: u32,
) -> Result<OwnedAsk<A>, RestoreFault>
    ensures row { IfOk result (λ own. IsRowOf journal.now.contents own.seat own.message (kept row.now)) }
    ensures known { IfOk result (λ own. IsKnownMessage (facts journal.now) own.message) }
    ensures why { IfErr result (λ fault. (format : ℕ)
        → RefusesRow format journal.now (kept row.now) at fault) }
{
    let ask = match ask_of(journal.desk().catalogue(), row) {
        Ok(ask) => ask,
        Err(why) => return Err(RestoreFault::NoTurn { at, why }),
    };
    match OwnedAsk::of(alloc, &ask) {
        Ok(own) => Ok(own),
        Err(_) => Err(RestoreFault::Memory),
    }
}

/// Compares a turn's reply with the outcome columns of its row, one after the other. `at` is the row's
/// number, and `format` the file's.
///
/// # Errors
/// `Differs` and `Memory`.
pub(crate) fn compare(
    alloc: Global,
    reply: &TurnReply,
    row: &TurnRow<'_>,
    at: u32,
    format: u32,
) -> Result<(), RestoreFault>
    ensures same { OnOk result (HasOutcome format reply.now (kept row.now)) }
    ensures why { IfErr result (λ fault. (fault ≡ RestoreFault.Memory)
        ⊎ ((column : Column) × (fault ≡ RestoreFault.Differs at column)
        × DiffersFirst format reply.now (kept row.now) column)) }
{
    replies_of_one_column_are_one();
    let Ok(came) = OutcomeColumns::of(alloc, reply) else {
        return Err(RestoreFault::Memory);
    };
    if row.outcome != came.outcome {
        return Err(differs(at, OutcomeColumn::Outcome));
    }
    if row.number != came.number {
        return Err(differs(at, OutcomeColumn::Number));
    }
    if format != FORMAT {
        return Ok(());
    }
    if row.reply != came.reply.as_slice() {
        return Err(differs(at, OutcomeColumn::Reply));
    }
    Ok(())
}

/// That a column of a row differs.
fn differs(at: u32, column: OutcomeColumn) -> RestoreFault
    ensures { result ≡ RestoreFault.Differs at column }
{
    RestoreFault::Differs { at, column }
}
