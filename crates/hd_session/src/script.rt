//! Several sessions: pieces of their streams, in the order in which they come.
ghost use Rattle.std.specs.Prelude.{◌≡◌, ◌<◌, ◌∷◌, [], All, IfErr, IfNone, IfSome, OnErr, OnOk, length, map};
ghost use Rattle.hd_session.specs.Scripts.{AreKnownTo, IsFaultOf, IsStrangerAt, Plays, named_in, played};
ghost use Rattle.hd_session.specs.Scripts.{steps_of};

use crate::session::Session;
use hd_date::Stamp18;
use hd_exchange::Office;
use std::alloc::Allocator;

/// Why a script isn't played.
#[derive(Clone, Copy, PartialEq, Eq, Debug)]
pub enum ScriptFault {
    /// The piece at this place, counted from 0, names no session; those before it do.
    Stranger { at: usize },
}

/// Plays pieces of the streams of several sessions, all at one present: each is fed to the session of its
/// number, counted from 0, and the replies are appended to the out of the same number. There are as many outs
/// as sessions.
///
/// A session that has ended hears nothing more. It keeps the reason.
///
/// # Errors
/// `Stranger` where a piece names no session. Nothing is done then.
pub fn run<A: Allocator + Copy, O: Office<A>>(
    office: &mut O,
    now: &Stamp18,
    sessions: &mut [Session<'_, A>],
    pieces: &[(usize, &[u8])],
    outs: &mut [Vec<u8, A>],
) -> Result<(), ScriptFault>
    requires outs { length outs.old ≡ length sessions.old }
    requires known { AreKnownTo (O.keeps office.old).contents sessions.old }
    ensures plays { Plays O.Office office.old office.new (played result (steps_of now.now pieces.now))
        sessions.old sessions.new (map (λ out. out.items) outs.old) (map (λ out. out.items) outs.new) }
    // Each piece names one of the sessions.
    ensures named { OnOk result (All (λ session. session < length sessions.old) (named_in pieces.now)) }
    ensures stranger { IfErr result (IsFaultOf (length sessions.old) (named_in pieces.now)) }
    ensures nothing { OnErr result ((sessions.new ≡ sessions.old) × (outs.new ≡ outs.old)) }
{
    match stranger(pieces, sessions.len()) {
        Some(at) => Err(ScriptFault::Stranger { at }),
        None => {
            for (session, bytes) in pieces {
                play(office, now, sessions, *session, bytes, outs);
            }
            Ok(())
        }
    }
}

/// The place of the first piece that names no session, where there are `sessions` of them.
fn stranger(pieces: &[(usize, &[u8])], sessions: usize) -> Option<usize>
    ensures known { IfNone result (All (λ session. session < sessions) (named_in pieces.now)) }
    ensures first { IfSome result (IsStrangerAt sessions (named_in pieces.now)) }
{
    for (at, (session, _)) in pieces.iter().enumerate() {
        if *session >= sessions {
            return Some(at);
        }
    }
    None
}

/// Plays one piece.
fn play<A: Allocator + Copy, O: Office<A>>(
    office: &mut O,
    now: &Stamp18,
    sessions: &mut [Session<'_, A>],
    session: usize,
    bytes: &[u8],
    outs: &mut [Vec<u8, A>],
)
    requires outs { length outs.old ≡ length sessions.old }
    requires known { AreKnownTo (O.keeps office.old).contents sessions.old }
    requires session { session < length sessions.old }
    ensures { Plays O.Office office.old office.new
        (record { session = session; piece = record { now = now.now; bytes = bytes.now } } ∷ [])
        sessions.old sessions.new (map (λ out. out.items) outs.old) (map (λ out. out.items) outs.new) }
{
    let _ = sessions[session].feed(bytes, now, office, &mut outs[session]);
}
