//! `replay`: the messages of a file, answered as the server would.
ghost use Rattle.std.specs.Prelude.{IfErr};
ghost use Rattle.hd_connection.specs.Streams.{streams};
ghost use Rattle.hd_server.specs.Ends.{HasReason, IsReplay};

use crate::fault::ServerFault;
use hd_connection::{Input, Output};

/// Answers the messages that a reader gives, over the library of a catalogue file, and writes the replies, as
/// `hd_replay::replay` does.
///
/// `now` is the present, a stamp of 18 bytes (docs/protocol.md, "Dates"). Each line of the input is
/// `<session> <message>`, and each reply is written as `<session> <reply>` and LF (docs/protocol.md, "The
/// program replay").
///
/// # Errors
/// `Replay`, with each of the faults of `hd_replay::replay`.
pub fn replay<R: Input, W: Output>(
    rt: &HostRuntime,
    catalogue: &[u8],
    now: &[u8],
    from: &mut R,
    to: &mut W,
) -> Result<(), ServerFault>
    ensures replay { IsReplay catalogue.now now.now
        (streams (R.remaining from.old) (R.remaining from.new) (W.contents to.old) (W.contents to.new))
        result }
    ensures why { IfErr result (HasReason (R.fails from.new) (W.fails to.new)) }
{
    hd_replay::replay(rt, catalogue, now, from, to)?;
    Ok(())
}
