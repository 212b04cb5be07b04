//! Rows.

use hd_rules::{
    Asked, Cell, CopyNo, CopyState, Hold, Reply, SeatNo, Survivor, TerminalNo, TitleNo, TurnReply,
    Value,
};

/// A row of a page.
#[derive(Clone, Copy)]
pub enum Row {
    /// A copy, and where it is.
    Copy {
        copy: CopyNo,
        state: CopyState,
    },
    /// A hold of a title, and its position in the title's queue, from 1.
    Hold {
        title: TitleNo,
        position: u64,
        hold: Hold,
    },
    /// A turn, and its number, from 1. The line that it may keep isn't shown.
    Turn {
        number: u64,
        seat: SeatNo,
        terminal: TerminalNo,
        asked: Asked,
        reply: TurnReply,
    },
    /// A command that was accepted and not cancelled, what it replied, and the number of the first later one
    /// that depends on it, if one does.
    Command {
        survivor: Survivor,
        reply: Reply,
        dependent: Option<u64>,
    },
    /// What a cell had before a command.
    Before {
        cell: Cell,
        value: Value,
    },
    /// What it has after it.
    After {
        cell: Cell,
        value: Value,
    },
}
