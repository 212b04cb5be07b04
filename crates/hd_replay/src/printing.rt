//! What is printed of a session's replies.
ghost use Rattle.std.specs.Prelude.{◌≡◌, ◌≢◌, ◌+◌, ◌∷◌, [], ◌++◌, ℕ, IfErr, List, MatchResult, OnOk, Some};
ghost use Rattle.std.specs.Prelude.{flat_map};
ghost use Rattle.hd_replay.specs.Inputs.{AreLines};
ghost use Rattle.hd_replay.specs.Printing.{PrintsBehind, end_text, printed_line};
ghost use Rattle.hd_replay.specs.Replays.{IsOfOffice};
ghost use Rattle.hd_replay.specs.declared.fault.ReplayFault.TheVariants as fault;
ghost use Rattle.hd_session.specs.Endings.{EndsWell};
ghost use Rattle.hd_session.specs.declared.ended.Ended.TheVariants as ended;

use crate::fault::ReplayFault;
use hd_field::line;
use hd_session::{Ended, TurnFault};
use itoa::Buffer;
use std::alloc::{AllocError, Allocator};

/// Prints what a session answers to a line: its replies, and `ENDED` where a line too long has ended it.
///
/// An error is that it is out of memory, here or in the session. The text is printed up to some point then.
pub(crate) fn print_answer<A: Allocator>(
    out: &mut Vec<u8, A>,
    session: usize,
    replies: &[u8],
    end: Option<Ended>,
) -> Result<(), ReplayFault>
    requires { IsOfOffice end }
    ensures printed { (parts : List (List ℕ)) × (rest : List ℕ)
        × AreLines 13 replies.now parts rest
        × PrintsBehind out.old.items out.new.items
        (flat_map (printed_line session) parts ++ end_text session end)
        result }
    ensures well { OnOk result (EndsWell end) }
    ensures memory { IfErr result (λ what. what ≡ fault.Memory) }
{
    print_replies(out, session, replies)?;
    match end {
        None => Ok(()),
        Some(why) => print_end(out, session, why),
    }
}

/// Prints that a line too long has ended a session. That the session was out of memory is an error.
///
/// An error is that it is out of memory. The text is printed up to some point then.
fn print_end<A: Allocator>(
    out: &mut Vec<u8, A>,
    session: usize,
    why: Ended,
) -> Result<(), ReplayFault>
    requires { IsOfOffice (Some why) }
    ensures printed { PrintsBehind out.old.items out.new.items (end_text session (Some why)) result }
    ensures well { OnOk result (why ≡ ended.TooLong) }
    ensures memory { IfErr result (λ what. what ≡ fault.Memory) }
{
    match why {
        Ended::TooLong => {
            print_line(out, session, b"ENDED")?;
            Ok(())
        }
        Ended::Turn(TurnFault::Memory) => Err(ReplayFault::Memory),
        Ended::Turn(TurnFault::Estranged { .. }) => unreachable!(),
        Ended::Turn(TurnFault::Unwritten(_)) => unreachable!(),
    }
}

/// Prints the replies of a session, each with the session's number before it and a line feed in the place of
/// its carriage return.
///
/// An error is that it is out of memory. The text is printed up to some point then.
fn print_replies<A: Allocator>(
    out: &mut Vec<u8, A>,
    session: usize,
    replies: &[u8],
) -> Result<(), AllocError>
    ensures { (parts : List (List ℕ)) × (rest : List ℕ)
        × AreLines 13 replies.now parts rest
        × PrintsBehind out.old.items out.new.items (flat_map (printed_line session) parts) result }
{
    let mut rest = replies;
    while let Some(reply) = line(rest) {
        let (_, behind) = rest.split_at(reply.used);
        print_line(out, session, reply.text)?;
        rest = behind;
    }
    Ok(())
}

/// Prints a line of a session.
///
/// An error is that it is out of memory. The line is printed up to some point then.
fn print_line<A: Allocator>(
    out: &mut Vec<u8, A>,
    session: usize,
    text: &[u8],
) -> Result<(), AllocError>
    ensures { PrintsBehind out.old.items out.new.items (printed_line session text.now) result }
{
    let mut buffer = Buffer::new();
    let number = buffer.format(session).as_bytes();
    for part in [number, b" ", text, b"\n"] {
        out.extend_from_slice(part)?;
    }
    Ok(())
}
