//! The outcome of a turn, in short.
ghost use Rattle.std.specs.Prelude.{◌≡◌};
ghost use Rattle.hd_turn_row.specs.Replies.{named_command, outcome_word};

use crate::reply::reply_column;
use hd_rules::{Refusal, TurnReply};
use std::alloc::{AllocError, Global};

/// The outcome of a turn, as columns of its row.
#[derive(Drop)]
pub struct OutcomeColumns {
    /// The kind of the reply, in one word: `done`, `refused`, `cancelled`, or `item` of a query.
    pub outcome: &'static [u8],
    /// The number of the command that the reply names: the one that was done or cancelled, or that depends on
    /// the target of a refused cancellation. It is `None` where the reply names none, and where its number
    /// has more than 32 bits, which the column of the reply has all the same.
    pub number: Option<u32>,
    /// The reply, with all that it says.
    pub reply: Vec<u8>,
}

impl OutcomeColumns {
    ghost use Rattle.std.specs.Prelude.{IfOk};
    ghost use Rattle.hd_turn_row.specs.Rows.{AreColumnsOf};

    /// The outcome columns of a turn with this reply.
    ///
    /// # Errors
    /// Out of memory.
    pub fn of(alloc: Global, reply: &TurnReply) -> Result<OutcomeColumns, AllocError>
        ensures { IfOk result (AreColumnsOf reply.now) }
    {
        Ok(OutcomeColumns {
            outcome: outcome_of(reply),
            number: named_command(reply).and_then(|number| u32::try_from(number).ok()),
            reply: reply_column(alloc, reply)?,
        })
    }
}

/// The kind of a reply, in one word.
fn outcome_of(reply: &TurnReply) -> &'static [u8]
    ensures { result.now ≡ outcome_word reply.now }
{
    match reply {
        TurnReply::Done { .. } => b"done",
        TurnReply::Refused(_) => b"refused",
        TurnReply::Cancelled { .. } => b"cancelled",
        TurnReply::Item(_) => b"item",
    }
}

/// The number of the command that a reply names.
fn named_command(reply: &TurnReply) -> Option<u64>
    ensures { result ≡ named_command reply.now }
{
    match reply {
        TurnReply::Done { number, .. }
        | TurnReply::Refused(Refusal::Depends { number })
        | TurnReply::Cancelled { number } => Some(*number),
        TurnReply::Refused(_) | TurnReply::Item(_) => None,
    }
}
