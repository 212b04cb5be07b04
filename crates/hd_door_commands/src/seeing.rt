//! What `show` tells.

use crate::answering::{answer_at, refusal, unanswered};
use crate::fault::DoorCommandFault;
use hd_command_line::Show;
use hd_door_client::{Request, Rows, number_of};
use hd_lists::{Key, Question};
use hd_terminal_output::{Pages, print_list};

/// The status of an answer that has what was asked for.
const OK: u16 = 200;

/// Shows what a server has, on as many pages as it takes.
///
/// # Errors
/// It can't be asked, has nothing of the name, or gives no whole answer; the output can't be written.
pub fn show(rt: &HostRuntime, order: &Show<'_>) -> Result<(), DoorCommandFault> {
    let server = Server {
        rt,
        door: order.door,
    };
    print_list(rt, &server, &order.shown)
}

/// A server at a door.
#[derive(Clone, Copy)]
struct Server<'a> {
    rt: &'a HostRuntime,
    door: &'a str,
}

impl Pages for Server<'_> {
    type Fault = DoorCommandFault;

    fn page(&self, question: &Question<&[u8]>) -> Result<Option<Rows>, DoorCommandFault> {
        let alloc = self.rt.alloc();
        let answer = answer_at(self.rt, self.door, &Request::See(*question))?;
        match (answer.status, question.key) {
            (OK, _) => match Rows::read(alloc, answer.body) {
                Ok(rows) => Ok(Some(rows)),
                Err(fault) => Err(unanswered(alloc, self.door, fault)?),
            },
            (400, Key::Day(_)) | (404, Key::Name(_) | Key::Number(_)) => Ok(None),
            _ => Err(refusal(alloc, &answer)?),
        }
    }

    /// How many turns its journal has; none where it isn't shown any more, and the answer to the next
    /// question says why.
    fn turns(&self) -> Result<u64, DoorCommandFault> {
        let metrics = answer_at(self.rt, self.door, &Request::Metrics)?;
        Ok(number_of(metrics.body.as_slice(), b"holddesk_journal_turns ").unwrap_or(0))
    }
}
