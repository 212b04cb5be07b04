//! Waiting a little before a connection is closed.
ghost use Rattle.std.specs.Prelude.{◌<◌, IfNone, IfSome};
ghost use Rattle.hd_door.specs.Lingering.{IsDropped, IsDroppedCount, IsNoneDropped};

use hd_connection::Input;

/// The most bytes that are read of a client that still sends when it has its answer.
const MOST: usize = 1_048_576;

/// The most bytes of a read.
const PIECE: usize = 4_096;

/// Reads what a client still sends, and drops it, so that closing doesn't take its answer away: until its end,
/// until a read fails, or `MOST` bytes.
pub(crate) fn linger<I: Input>(from: &mut I)
    ensures { IsDropped (I.fails from.new) (I.remaining from.old) (I.remaining from.new) }
{
    let mut dropped = 0;
    while dropped < MOST {
        match drop_some(from, MOST - dropped) {
            Some(count) => dropped += count,
            None => return,
        }
    }
}

/// Reads once, and drops what came: how many bytes, at most so many. `None` where no more come, or the read
/// fails.
fn drop_some<I: Input>(from: &mut I, most: usize) -> Option<usize>
    requires { 0 < most }
    ensures some { IfSome result (IsDroppedCount most (I.remaining from.old) (I.remaining from.new)) }
    ensures none { IfNone result (IsNoneDropped (I.fails from.new) (I.remaining from.old)
        (I.remaining from.new)) }
{
    let mut piece = [0u8; PIECE];
    match from.read_some(&mut piece[..PIECE.min(most)]) {
        Ok(0) | Err(_) => None,
        Ok(count) => Some(count),
    }
}
