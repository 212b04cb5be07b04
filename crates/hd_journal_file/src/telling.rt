//! The row of a turn.

ghost use Rattle.std.specs.Prelude.{◌≡◌, ℕ};
ghost use Rattle.std.specs.Arc.{arc_value};
ghost use Rattle.hd_catalogue.specs.Contents.{facts_of};
ghost use Rattle.hd_journal.specs.Shown.{turn_shown};
ghost use Rattle.hd_rules.specs.Messages.{IsKnownMessage, asking, kept_line, message_of};
ghost use Rattle.hd_turn_row.specs.Rows.{AreAskedColumns, AreColumnsOf, IsTurnRow};
ghost use Rattle.hd_turn_store.specs.Rows.{kept};

use hd_catalogue::Catalogue;
use hd_journal::TurnRef;
use hd_rules::{Ask, Asked};
use hd_turn_row::{AskedColumns, OutcomeColumns, row_of};
use hd_turn_store::TurnRow;
use std::alloc::Allocator;
use std::sync::Arc;

/// The row of a turn, which is no query. Its message is known to the catalogue, and the columns are its own.
pub(crate) fn turn_row<'a, 't: 'a, A: Allocator + Copy>(
    catalogue: &'a Arc<Catalogue<A>, A>,
    turn: &TurnRef<'t>,
    asked: &'a AskedColumns,
    came: &'a OutcomeColumns,
) -> TurnRow<'a>
    requires known { IsKnownMessage (facts_of (arc_value catalogue.now)) (turn_shown turn.now).message }
    requires asked { AreAskedColumns turn.now.asked asked.now }
    requires came { AreColumnsOf turn.now.reply came.now }
    ensures { (format : ℕ) → IsTurnRow (arc_value catalogue.now) format (turn_shown turn.now) (kept result) }
{
    match &turn.asked {
        Asked::Command(_) | Asked::Cancel(_) => row_of(catalogue, &ask_of(turn), asked, came),
        Asked::Item(_) => unreachable!(),
    }
}

/// What a turn asked. A query has no line.
fn ask_of<'a, 't: 'a>(turn: &TurnRef<'t>) -> Ask<'a>
    ensures { message_of result
        ≡ record {
          seat = (turn_shown turn.now).seat;
          message = asking turn.now.terminal turn.now.asked
              (kept_line turn.now.asked (turn_shown turn.now).message.line);
        } }
{
    let line: Option<&'a [u8]> = match turn.line {
        Some(line) => Some(line),
        None => None,
    };
    Ask::new(turn.seat, turn.terminal, turn.asked, line)
}
