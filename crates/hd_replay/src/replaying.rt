//! `replay`: the lines of an input, answered in order.
ghost use Rattle.std.specs.Prelude.{◌≡◌, ◌<◌, ◌≤◌, ◌+◌, ◌^◌, [], ℕ, Contains, List, Err, IfErr, IfOk};
ghost use Rattle.std.specs.Prelude.{OnOk};
ghost use Rattle.std.specs.Prelude.{drop, vec_len};
ghost use Rattle.std.specs.Io.KnownBytes.{Appends};
ghost use Rattle.hd_connection.specs.Streams.{streams};
ghost use Rattle.hd_exchange.specs.Extensions.{extensions_lent, no_extensions};
ghost use Rattle.hd_replay.specs.Ends.{IsReplayOf, ReadsAndWrites, ReplaysOver};
ghost use Rattle.hd_replay.specs.Inputs.{AreLines, with_rest};
ghost use Rattle.hd_replay.specs.Reasons.{HasReason};
ghost use Rattle.hd_replay.specs.Replays.{IsLegalReplay, IsStop, Replayed};

use crate::fault::ReplayFault;
use crate::sessions::Sessions;
use hd_catalogue::Catalogue;
use hd_connection::{Input, Output, write_all};
use hd_date::Stamp18;
use hd_desk::Meter;
use hd_journal::Journal;
use hd_session::{Extensions, Patrons, Profile};
use std::alloc::{AllocError, Allocator};

/// The most bytes that an input may have.
const LONGEST_INPUT: usize = 16_777_216;

/// How many bytes are read at once.
const PIECE: usize = 65_536;

/// Answers the messages that a reader gives, over the library of a catalogue file, and writes the replies.
///
/// `now` is the present, a stamp of 18 bytes (docs/protocol.md, "Dates"); it stands in replies to unreadable
/// dates. Each line of the input, ended by LF or by the end of input, is `<session> <message>`: a number from
/// 1 to 64 without leading zero, one blank, and a message without its carriage return. Each reply is written
/// as `<session> <reply>` and LF, and a session that has ended is answered `<session> ENDED`
/// (docs/protocol.md, "The program replay"). Whole lines are answered, and their replies written, before the
/// next read.
///
/// # Errors
/// `Catalogue` where the file is refused, and then `BadNow`; nothing is read then. `NoSession` at the first
/// line with no session; the lines before it are answered. `InputTooLong` past 16,777,216 bytes; the whole
/// lines among them are answered. `Read` where a read fails; the whole lines read are answered. `Write` where
/// a write fails, and `Memory` where it is out of memory, also in a session: what was written is the
/// beginning of the replies to the first lines.
pub fn replay<R: Input, W: Output>(
    rt: &HostRuntime,
    catalogue: &[u8],
    now: &[u8],
    from: &mut R,
    to: &mut W,
) -> Result<(), ReplayFault>
    ensures replay { IsReplayOf catalogue.now now.now
        (streams (R.remaining from.old) (R.remaining from.new) (W.contents to.old) (W.contents to.new))
        result }
    ensures why { IfErr result (HasReason (R.fails from.new) (W.fails to.new)) }
{
    replay_in(rt, rt.alloc(), catalogue, now, from, to)
}

/// The same over memory of an allocator.
///
/// # Errors
/// Those of `replay`.
pub fn replay_in<A: Allocator + Copy, R: Input, W: Output>(
    rt: &HostRuntime,
    alloc: A,
    catalogue: &[u8],
    now: &[u8],
    from: &mut R,
    to: &mut W,
) -> Result<(), ReplayFault>
    ensures replay { IsReplayOf catalogue.now now.now
        (streams (R.remaining from.old) (R.remaining from.new) (W.contents to.old) (W.contents to.new))
        result }
    ensures why { IfErr result (HasReason (R.fails from.new) (W.fails to.new)) }
{
    match Catalogue::read(alloc, catalogue) {
        Ok(catalogue) => match hd_date::read(now, catalogue.offset()) {
            Ok(now) => replay_catalogue(rt, alloc, catalogue, now, from, to),
            Err(_) => Err(ReplayFault::BadNow),
        },
        Err(fault) => Err(ReplayFault::Catalogue(fault)),
    }
}

/// Answers the messages over the catalogue of a file, at a present. No journal begins only where it is out
/// of memory: such a catalogue has no opening rows.
fn replay_catalogue<A: Allocator + Copy, R: Input, W: Output>(
    rt: &HostRuntime,
    alloc: A,
    catalogue: Catalogue<A>,
    now: Stamp18,
    from: &mut R,
    to: &mut W,
) -> Result<(), ReplayFault>
    ensures replay { ReplaysOver catalogue no_extensions now
        (streams (R.remaining from.old) (R.remaining from.new) (W.contents to.old) (W.contents to.new))
        result }
    ensures why { IfErr result (HasReason (R.fails from.new) (W.fails to.new)) }
{
    let extensions = no_extensions();
    match hd_journal::open(alloc, rt.alloc(), Meter::new(rt), catalogue) {
        Ok(journal) => replay_over(alloc, journal, now, Some(&extensions), from, to),
        Err(_) => Err(ReplayFault::Memory),
    }
}

/// Answers the messages that a reader gives from a journal without turns, at a present, and writes the
/// replies. Each session has these extensions, if any.
///
/// # Errors
/// Those of `replay`, but `Catalogue` and `BadNow`.
pub fn replay_over<A: Allocator + Copy, R: Input, W: Output>(
    alloc: A,
    journal: Journal<A>,
    now: Stamp18,
    extensions: Option<&Extensions<A>>,
    from: &mut R,
    to: &mut W,
) -> Result<(), ReplayFault>
    requires new { journal.turns ≡ [] }
    ensures replay { ReplaysOver journal.contents (extensions_lent extensions.entry) now
        (streams (R.remaining from.old) (R.remaining from.new) (W.contents to.old) (W.contents to.new))
        result }
    ensures why { IfErr result (HasReason (R.fails from.new) (W.fails to.new)) }
{
    prove!(journal.front() == 0);
    let mut sessions = Sessions::new(alloc, journal, now, extensions)?;
    answer_input(alloc, &mut sessions, from, to)
}

/// Answers the lines of an input.
fn answer_input<A: Allocator + Copy, R: Input, W: Output>(
    alloc: A,
    sessions: &mut Sessions<'_, A>,
    from: &mut R,
    to: &mut W,
) -> Result<(), ReplayFault>
    requires { sessions.old.lines ≡ 0 }
    ensures reads { ReadsAndWrites sessions.old sessions.new
        (streams (R.remaining from.old) (R.remaining from.new) (W.contents to.old) (W.contents to.new))
        result }
    ensures why { IfErr result (HasReason (R.fails from.new) (W.fails to.new)) }
    ensures legal { IsLegalReplay sessions.old → IsLegalReplay sessions.new }
{
    let mut input = Vec::new(alloc);
    let mut out = Vec::new(alloc);
    let mut piece = blank(alloc, PIECE)?;
    let mut room = LONGEST_INPUT;
    for _ in 0..=LONGEST_INPUT {
        let count = from.read_some(piece.as_mut_slice())?;
        if count == 0 {
            return answer_rest(sessions, &mut input, &mut out, to);
        }
        let taken = count.min(room);
        room -= taken;
        input.extend_from_slice(&piece[..taken])?;
        answer_whole(sessions, &mut input, &mut out, to)?;
        if taken < count {
            return Err(ReplayFault::InputTooLong);
        }
    }
    Err(ReplayFault::InputTooLong)
}

/// Answers the whole lines of what was read, and writes the replies. What is left is the beginning of a line.
fn answer_whole<A: Allocator + Copy, W: Output>(
    sessions: &mut Sessions<'_, A>,
    input: &mut Vec<u8, A>,
    out: &mut Vec<u8, A>,
    to: &mut W,
) -> Result<(), ReplayFault>
    requires lines { sessions.old.lines + vec_len input.old < 2 ^ 64 }
    requires out { out.old.items ≡ [] }
    ensures replayed { (whole : List (List ℕ)) × (rest : List ℕ) × (put : List ℕ)
        × AreLines 10 input.old.items whole rest
        × Replayed sessions.old sessions.new whole result put
        × Appends (W.contents to.old) (W.contents to.new) put
        × OnOk result (input.new.items ≡ rest) }
    ensures stops { IfErr result IsStop }
    ensures why { IfErr result (HasReason ⊥ (W.fails to.new)) }
    ensures out { OnOk result (out.new.items ≡ []) }
    ensures legal { IsLegalReplay sessions.old → IsLegalReplay sessions.new }
{
    let answered = sessions.answer_lines(input.as_mut_slice(), out);
    write_all(to, out.as_slice())?;
    let used = answered?;
    out.clear();
    take_front(input, used);
    Ok(())
}

/// Takes so many bytes away from the front.
fn take_front<A: Allocator>(input: &mut Vec<u8, A>, count: usize)
    requires { count ≤ vec_len input.old }
    ensures { input.new.items ≡ drop count input.old.items }
{
    let left = input.len() - count;
    input.copy_within(count.., 0);
    input.truncate(left);
}

/// Answers a last line that nothing ends, where there is one: the end of input ends it.
fn answer_rest<A: Allocator + Copy, W: Output>(
    sessions: &mut Sessions<'_, A>,
    input: &mut Vec<u8, A>,
    out: &mut Vec<u8, A>,
    to: &mut W,
) -> Result<(), ReplayFault>
    requires rest { ¬ Contains input.old.items 10 }
    requires lines { sessions.old.lines + vec_len input.old + 1 < 2 ^ 64 }
    requires out { out.old.items ≡ [] }
    ensures replayed { (put : List ℕ)
        × Replayed sessions.old sessions.new (with_rest [] input.old.items) result put
        × Appends (W.contents to.old) (W.contents to.new) put }
    ensures stops { IfErr result IsStop }
    ensures why { IfErr result (HasReason ⊥ (W.fails to.new)) }
    ensures legal { IsLegalReplay sessions.old → IsLegalReplay sessions.new }
{
    if input.is_empty() {
        return Ok(());
    }
    input.push(b'\n')?;
    answer_whole(sessions, input, out, to)
}

/// So many bytes to read into.
fn blank<A: Allocator>(alloc: A, length: usize) -> Result<Vec<u8, A>, AllocError>
    ensures { IfOk result (λ bytes. vec_len bytes ≡ length) }
{
    vec![in alloc; 0; length]
}

/// The standard messages alone.
fn no_extensions<A: Allocator>() -> Extensions<A>
    ensures { result ≡ no_extensions }
{
    let profile = Profile {
        patron_messages: false,
        sorter_fields: false,
    };
    Extensions::new(profile, Patrons::none())
}
