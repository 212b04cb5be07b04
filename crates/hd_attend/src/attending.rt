//! Attending to a connection.
ghost use Rattle.std.specs.Prelude.{◌≡◌, ◌<◌, ◌≤◌, [], IfErr, List, Some, length};
ghost use Rattle.hd_exchange.specs.Deeds.{Deed};
ghost use Rattle.hd_connection.specs.Streams.{streams};
ghost use Rattle.hd_exchange.specs.Works.{Works};
ghost use Rattle.hd_session.specs.States.{IsKnownTo};
ghost use Rattle.hd_attend.specs.Attending.{Attends};
ghost use Rattle.hd_attend.specs.Reasons.{HasReason};

use crate::announced::AnnouncedOffice;
use crate::fault::AttendFault;
use crate::surroundings::Surroundings;
use hd_connection::{Input, Output, write_all};
use hd_date::Stamp18;
use hd_exchange::Office;
use hd_session::{Session, SessionLog};
use std::alloc::Allocator;
use std::sync::Wait;

/// How many bytes are read at once, at most.
const PIECE: usize = 512;

/// Answers what a reader gives at an office, as a counter of a hall, up to its end. Each piece is fed to the
/// session at the present of its surroundings, and its replies are written before the next is read. A last
/// line without its carriage return is dropped.
///
/// The surroundings are called before each turn with this number of the session and the number of the turn.
/// The session calls the log as it decides.
///
/// # Errors
/// `Read` and `Write` where a call fails, and `Ended` where the session ends or has ended. All replies are
/// written then, except where a write fails.
pub fn attend<
    R: Wait,
    I: Input,
    W: Output,
    A: Allocator + Copy,
    O: Office<A>,
    S: Surroundings,
    L: SessionLog,
>(
    rt: &R,
    from: &mut I,
    to: &mut W,
    office: &mut O,
    state: &mut Session<'_, A>,
    session: usize,
    surroundings: &S,
    log: &mut L,
) -> Result<(), AttendFault>
    // The session is logged in as a terminal of the office's catalogue, or as none.
    requires login { IsKnownTo (O.keeps office.old).contents state.old.state }
    ensures attends { (did : List Deed)
        × Works O.Office office.old office.new did
        × Attends (O.keeps office.old).contents (O.keeps office.old).seat O.faults (S.tells surroundings.now)
        (L.entries log.old) (L.entries log.new)
        (streams (I.remaining from.old) (I.remaining from.new) (W.contents to.old) (W.contents to.new))
        did state.old state.new result }
    ensures why { IfErr result (HasReason (I.fails from.new) (W.fails to.new)) }
{
    let mut announced = AnnouncedOffice::new(office, surroundings, session);
    let mut piece = [0; PIECE];
    let mut out = Vec::new(state.alloc());
    for _ in rt.forever() {
        let count = from.read_some(&mut piece)?;
        if count == 0 {
            return Ok(());
        }
        let now = surroundings.now();
        answer_piece(
            &piece[..count],
            &now,
            &mut announced,
            state,
            log,
            &mut out,
            to,
        )?;
    }
    unreachable!()
}

/// Feeds one piece to the session, and writes the replies.
fn answer_piece<W: Output, A: Allocator + Copy, O: Office<A>, L: SessionLog>(
    piece: &[u8],
    now: &Stamp18,
    office: &mut O,
    state: &mut Session<'_, A>,
    log: &mut L,
    out: &mut Vec<u8, A>,
    to: &mut W,
) -> Result<(), AttendFault>
    requires piece { (0 < length piece.now) × (length piece.now ≤ 512) }
    requires login { IsKnownTo (O.keeps office.old).contents state.old.state }
    ensures attends { (did : List Deed)
        × Works O.Office office.old office.new did
        × Attends (O.keeps office.old).contents (O.keeps office.old).seat O.faults
        (λ present. present ≡ now.now) (L.entries log.old) (L.entries log.new)
        (streams (Some piece.now) (Some []) (W.contents to.old) (W.contents to.new))
        did state.old state.new result }
    ensures why { IfErr result (HasReason ⊥ (W.fails to.new)) }
{
    out.clear();
    let fed = state.feed_logged(piece, now, office, log, out);
    write_all(to, out.as_slice())?;
    fed?;
    Ok(())
}
