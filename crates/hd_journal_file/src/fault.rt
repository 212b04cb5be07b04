//! Why a journal isn't restored from its file.

use hd_turn_row::RowFault;
use hd_turn_store::Fault;

/// A column of a turn's outcome.
#[derive(Clone, Copy, PartialEq, Eq, Debug)]
pub enum OutcomeColumn {
    /// The kind of the reply, in one word.
    Outcome,
    /// The number of the command that the reply names.
    Number,
    /// The reply.
    Reply,
}

/// Why a journal isn't restored from its file. Its rows are numbered from 1, in their order.
#[derive(Clone, Copy, PartialEq, Eq, Debug)]
pub enum RestoreFault {
    /// The file can't be read.
    Unread(Fault),
    /// Out of memory.
    Memory,
    /// The row is that of no turn.
    NoTurn {
        /// The number of the row.
        at: u32,
        /// What is wrong with it.
        why: RowFault,
    },
    /// The turn of the row changes nothing: it repeats one before.
    NoChange {
        /// The number of the row.
        at: u32,
    },
    /// The outcome of the turn, taken again, is another than the row says.
    Differs {
        /// The number of the row.
        at: u32,
        /// The first column that differs.
        column: OutcomeColumn,
    },
    /// There are more rows than can be counted.
    TooMany,
}
