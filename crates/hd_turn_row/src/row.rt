//! The row of a turn.
ghost use Rattle.std.specs.Prelude.{◌≡◌, ℕ, IfErr, IfOk, OnErr};
ghost use Rattle.hd_catalogue.specs.Contents.{facts_of};
ghost use Rattle.hd_rules.specs.Messages.{IsKnownMessage, message_of};
ghost use Rattle.hd_rules.specs.Turns.{Message};
ghost use Rattle.hd_rules.specs.declared.replies.TurnReply.{TurnReply};
ghost use Rattle.hd_turn_row.specs.Faults.{IsFirstFault};
ghost use Rattle.hd_turn_row.specs.Rows.{AreAskedColumns, AreColumnsOf, HasOutcome, IsRowOf};
ghost use Rattle.hd_turn_store.specs.Rows.{kept};

use crate::asked::asked_of;
use crate::asked_columns::AskedColumns;
use crate::fault::{Column, RowFault};
use crate::laws::a_row_is_of_one_message;
use crate::outcome::OutcomeColumns;
use crate::reading::parts_said;
use crate::terminals::terminal_named;
use hd_catalogue::Catalogue;
use hd_rules::{Ask, SeatNo};
use hd_turn_store::TurnRow;
use std::alloc::Allocator;

/// The row of what was asked and of its outcome. It takes no memory: the columns have the texts that neither
/// the catalogue nor the message has.
#[tactic(auto, using(crate::proofs::ColumnLemmas::day_column))]
pub fn row_of<'a, A: Allocator + Copy>(
    catalogue: &'a Catalogue<A>,
    ask: &Ask<'a>,
    asked: &'a AskedColumns,
    came: &'a OutcomeColumns,
) -> TurnRow<'a>
    requires known { IsKnownMessage (facts_of catalogue.now) (message_of ask.now).message }
    requires asked { AreAskedColumns ask.now.asked asked.now }
    ensures row { let asking = message_of ask.now in
        IsRowOf catalogue.now asking.seat asking.message (kept result) }
    ensures came { (format : ℕ) (reply : TurnReply) → AreColumnsOf reply came.now
        → HasOutcome format reply (kept result) }
{
    let parts = &asked.parts;
    TurnRow {
        seat: ask.seat().number(),
        terminal: catalogue.terminal_name(ask.terminal()),
        day: asked.day(),
        act: parts.act.word(),
        patron: parts.patron.map(|patron| catalogue.patron_name(patron)),
        copy: parts.copy.map(|copy| catalogue.copy_name(copy)),
        title: parts.title.map(|title| catalogue.title_name(title)),
        branch: parts.branch.map(|branch| catalogue.branch_name(branch)),
        admits: parts.admits.map(|admits| admits.word()),
        until: asked.until(),
        line: ask.line(),
        outcome: came.outcome,
        number: came.number,
        reply: came.reply.as_slice(),
    }
}

/// What a row asks. The catalogue knows it, so that a journal may take it again.
///
/// # Errors
/// The first fault of the row, which is then that of no message.
pub fn ask_of<'a, A: Allocator + Copy>(
    catalogue: &Catalogue<A>,
    row: &TurnRow<'a>,
) -> Result<Ask<'a>, RowFault>
    ensures row { IfOk result (λ ask.
        IsRowOf catalogue.now (message_of ask).seat (message_of ask).message (kept row.now)) }
    ensures only { IfOk result (λ ask. (seat : ℕ) (message : Message)
        → IsRowOf catalogue.now seat message (kept row.now)
        → (seat ≡ (message_of ask).seat) × (message ≡ (message_of ask).message)) }
    ensures known { IfOk result (λ ask. IsKnownMessage (facts_of catalogue.now) (message_of ask).message) }
    ensures fault { IfErr result (IsFirstFault catalogue.now (kept row.now)) }
    ensures none { OnErr result ((seat : ℕ) (message : Message)
        → ¬ IsRowOf catalogue.now seat message (kept row.now)) }
{
    a_row_is_of_one_message();
    ask_said(catalogue, row)
}

/// What a row asks, or its first fault.
fn ask_said<'a, A: Allocator + Copy>(
    catalogue: &Catalogue<A>,
    row: &TurnRow<'a>,
) -> Result<Ask<'a>, RowFault>
    ensures row { IfOk result (λ ask.
        IsRowOf catalogue.now (message_of ask).seat (message_of ask).message (kept row.now)) }
    ensures fault { IfErr result (IsFirstFault catalogue.now (kept row.now)) }
{
    let Some(terminal) = terminal_named(catalogue, row.terminal) else {
        return Err(RowFault::UnknownName(Column::Terminal));
    };
    let parts = parts_said(catalogue, row)?;
    let asked = asked_of(&parts)?;
    let seat = SeatNo::new(row.seat);
    Ok(Ask::new(seat, terminal, asked, row.line))
}
