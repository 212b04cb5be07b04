//! What is asked in one turn.

ghost use Rattle.std.specs.Prelude.{◌≡◌, option_map};
ghost use Rattle.hd_rules.specs.Messages.{asking, kept_line, message_of};

use crate::numbers::{SeatNo, TerminalNo};
use crate::turns::Asked;

/// What a seat's terminal asks in one turn, with the message's line where that carried a sequence number.
///
/// A query has no line: nothing is kept of it, and it is never a repeat (docs/protocol.md, "Repeats").
#[derive(Clone, Copy)]
pub struct Ask<'a> {
    seat: SeatNo,
    terminal: TerminalNo,
    asked: Asked,
    line: Option<&'a [u8]>,
}

impl<'a> Ask<'a> {
    /// What this terminal of this seat asks. `line` is the whole line of a message that carried a sequence
    /// number.
    pub fn new(seat: SeatNo, terminal: TerminalNo, asked: Asked, line: Option<&'a [u8]>) -> Ask<'a>
        ensures { message_of result
            ≡ record {
              seat = seat;
              message = asking terminal asked
                  (kept_line asked (option_map (λ bytes. bytes.now) line.entry));
            } }
    {
        let line = match &asked {
            Asked::Item(_) => None,
            Asked::Command(_) | Asked::Cancel(_) => line,
        };
        Ask {
            seat,
            terminal,
            asked,
            line,
        }
    }

    /// The seat that it comes from.
    pub fn seat(&self) -> SeatNo
        ensures { result ≡ self.now.seat }
    {
        self.seat
    }

    /// The terminal that asks.
    pub fn terminal(&self) -> TerminalNo
        ensures { result ≡ self.now.terminal }
    {
        self.terminal
    }

    /// A command, a cancellation or a query.
    pub fn what_is_asked(&self) -> &Asked
        ensures { result.now ≡ self.now.asked }
    {
        &self.asked
    }

    /// The message's line: `None` of a query, and where it carried no sequence number.
    pub fn line(&self) -> Option<&'a [u8]>
        ensures { result ≡ self.now.line }
    {
        self.line
    }
}
