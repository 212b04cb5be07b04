//! The laws of sessions.
ghost use Rattle.std.specs.Prelude.{◌≡◌, ◌<◌, ◌≤◌, ◌+◌, ◌*◌, ◌++◌, ℕ, All, Bool, List, Option, Some, codes, false};
ghost use Rattle.std.specs.Prelude.{is_some, length, nat_eq};
ghost use Rattle.std.specs.List.{starts_with};
ghost use Rattle.hd_date.specs.Stamps.{Stamp};
ghost use Rattle.hd_rules.specs.Journal.{IsLegal, Turn};
ghost use Rattle.hd_catalogue.specs.Contents.{Contents, facts_of};
ghost use Rattle.hd_exchange.specs.Answers.{login_answer_text};
ghost use Rattle.hd_exchange.specs.Deeds.{AreShown, AreTurns, Deed};
ghost use Rattle.hd_exchange.specs.Extensions.{Extensions};
ghost use Rattle.hd_exchange.specs.declared.login.Login.{Login};
ghost use Rattle.hd_field.specs.Streams.{lines_in};
ghost use Rattle.hd_session.specs.Endings.{EndsWell};
ghost use Rattle.hd_session.specs.Scripts.{AreFed, Event, HaveNoPatronMessages, ShowsTheSame, Step, deeds_of};
ghost use Rattle.hd_session.specs.Scripts.{events_of, pieces_of, session_at, turns_of, replies_written};
ghost use Rattle.hd_session.specs.Sessions.{AreFedTo, Hearing, IsFed, Piece, Room, any_room, new_session};
ghost use Rattle.hd_session.specs.Sessions.{stream};
ghost use Rattle.hd_session.specs.Trailers.{text_and_trailer};
ghost use Rattle.hd_session.specs.declared.ended.Ended.TheVariants as end;
ghost use Rattle.hd_journal.specs.declared.fault.TurnFault.{TurnFault};
ghost use Rattle.hd_journal.specs.declared.fault.TurnFault.TheVariants as fault;

use hd_exchange::{Office, each_body_has_one_answer, only_patron_messages_look};
use hd_field::cuts_change_nothing;
use std::alloc::Allocator;

/// A session that is fed a piece of its stream and then another at the same present is one that is fed both at
/// once: however a stream is cut, the same is done and the same text is answered. The second piece may come
/// with less room, by the bytes of the replies to the first.
pub fn pieces_are_one<A: Allocator, O: Office<A>>()
    ensures { (k : Contents) (seat : ℕ) (now : Stamp) (room left : Room)
        (first then : List ℕ) (did did' : List Deed) (h between h' : Hearing) (text text' : List ℕ)
        → room.before ≤ left.before + 2048 * length (lines_in h.begun first)
        → room.after ≤ left.after
        → IsFed k seat O.faults now room h first did between text
        → IsFed k seat O.faults now left between then did' h' text'
        → IsFed k seat O.faults now room h (first ++ then) (did ++ did') h' (text ++ text') }
{
    cuts_change_nothing();
}

/// A new session that is fed pieces of its stream at one present is one that is fed its whole stream at once.
pub fn pieces_at_one_present<A: Allocator, O: Office<A>>()
    ensures { (k : Contents) (e : Extensions) (seat : ℕ) (now : Stamp) (room : Room) (pieces : List Piece)
        (did : List Deed) (h' : Hearing) (text : List ℕ)
        → All (λ piece. piece.now ≡ now) pieces
        → AreFedTo k seat O.faults room pieces (new_session e) did h' text
        → IsFed k seat O.faults now room (new_session e) (stream pieces) did h' text }
{
    cuts_change_nothing();
}

/// Of a script, each session has heard its own pieces in their order, as if they had come alone: by the deeds
/// that are its own, and with all that is written to it. One that was new at the start of a script at one
/// present has heard its whole stream, as if it had come in one piece.
pub fn sessions_hear_their_streams<A: Allocator, O: Office<A>>()
    ensures pieces { (k : Contents) (seat : ℕ) (steps : List Step) (ss ss' : List Hearing)
        (events : List Event) (i : ℕ)
        → i < length ss
        → AreFed k seat O.faults steps ss events ss'
        → AreFedTo k seat O.faults any_room (pieces_of i steps) (session_at ss i)
        (deeds_of (events_of i events)) (session_at ss' i) (replies_written i events) }
    ensures whole { (k : Contents) (e : Extensions) (seat : ℕ) (now : Stamp) (steps : List Step)
        (ss ss' : List Hearing) (events : List Event) (i : ℕ)
        → i < length ss
        → All (λ step. step.piece.now ≡ now) steps
        → AreFed k seat O.faults steps ss events ss'
        → session_at ss i ≡ new_session e
        → IsFed k seat O.faults now any_room (new_session e) (stream (pieces_of i steps))
        (deeds_of (events_of i events)) (session_at ss' i) (replies_written i events) }
{
    cuts_change_nothing();
}

/// A fault that isn't `Memory`, and that an office can't give, ends no session: so a journal alone, which is
/// never estranged and writes nothing, ends none by these.
pub fn no_session_ends_by_another_fault<A: Allocator, O: Office<A>>()
    ensures fed { (k : Contents) (seat : ℕ) (now : Stamp) (room : Room) (piece : List ℕ)
        (did : List Deed) (h h' : Hearing) (text : List ℕ) (what : TurnFault)
        → ¬ what ≡ fault.Memory → ¬ O.faults what
        → IsFed k seat O.faults now room h piece did h' text
        → ¬ h.ended ≡ Some (end.Turn what)
        → ¬ h'.ended ≡ Some (end.Turn what) }
    ensures script { (k : Contents) (seat : ℕ) (steps : List Step) (ss ss' : List Hearing)
        (events : List Event) (what : TurnFault)
        → ¬ what ≡ fault.Memory → ¬ O.faults what
        → AreFed k seat O.faults steps ss events ss'
        → ((i : ℕ) → ¬ (session_at ss i).ended ≡ Some (end.Turn what))
        → All (λ event. ¬ event.ended ≡ Some (end.Turn what)) events
        × ((i : ℕ) → ¬ (session_at ss' i).ended ≡ Some (end.Turn what)) }
{}

/// A session keeps the extensions with which it was opened. Where patron messages are off, no look is made
/// for it: the office makes turns, and nothing else; and so in a script of such sessions.
pub fn only_patron_messages_look_in_sessions<A: Allocator, O: Office<A>>()
    ensures extensions { (k : Contents) (seat : ℕ) (now : Stamp) (room : Room) (piece : List ℕ)
        (did : List Deed) (h h' : Hearing) (text : List ℕ)
        → IsFed k seat O.faults now room h piece did h' text
        → h'.state.extensions ≡ h.state.extensions }
    ensures fed { (k : Contents) (seat : ℕ) (now : Stamp) (room : Room) (piece : List ℕ)
        (did : List Deed) (h h' : Hearing) (text : List ℕ)
        → h.state.extensions.profile.patron_messages ≡ false
        → IsFed k seat O.faults now room h piece did h' text
        → AreTurns did }
    ensures script { (k : Contents) (seat : ℕ) (steps : List Step) (ss ss' : List Hearing)
        (events : List Event)
        → HaveNoPatronMessages ss
        → AreFed k seat O.faults steps ss events ss'
        → AreTurns (deeds_of events) × HaveNoPatronMessages ss' }
{
    only_patron_messages_look();
}

/// A script in which each session goes on, or is ended by a line too long, is determined by its pieces. Where
/// it is played twice from sessions that are alike, each time at a legal journal that goes on from the same
/// turns, it has the same events (what the office does, the replies and the ends), and the sessions are alike
/// again. That holds of sessions without patron messages, and of any others where the office shows a
/// look the same after the same turns.
pub fn scripts_are_determined<A: Allocator, O: Office<A>>()
    ensures standard { (k : Contents) (seat : ℕ) (turns : List Turn) (steps : List Step)
        (ss ends ends' : List Hearing) (events events' : List Event)
        → HaveNoPatronMessages ss
        → IsLegal (facts_of k) (turns ++ turns_of events)
        → IsLegal (facts_of k) (turns ++ turns_of events')
        → All (λ event. EndsWell event.ended) events
        → All (λ event. EndsWell event.ended) events'
        → AreFed k seat O.faults steps ss events ends
        → AreFed k seat O.faults steps ss events' ends'
        → (events ≡ events') × (ends ≡ ends') }
    ensures shown { (k : Contents) (seat : ℕ) (turns : List Turn) (steps : List Step)
        (ss ends ends' : List Hearing) (events events' : List Event)
        → ShowsTheSame O.shows
        → IsLegal (facts_of k) (turns ++ turns_of events)
        → IsLegal (facts_of k) (turns ++ turns_of events')
        → AreShown k O.shows turns (deeds_of events)
        → AreShown k O.shows turns (deeds_of events')
        → All (λ event. EndsWell event.ended) events
        → All (λ event. EndsWell event.ended) events'
        → AreFed k seat O.faults steps ss events ends
        → AreFed k seat O.faults steps ss events' ends'
        → (events ≡ events') × (ends ≡ ends') }
{
    each_body_has_one_answer();
    only_patron_messages_look();
}

/// A log knows by the reply to a login whether that is taken: exactly then it begins with 941.
pub fn logins_are_known_by_their_reply()
    ensures { (made : Option Login) (checked : Bool) (digit : Option ℕ)
        → starts_with nat_eq (text_and_trailer checked digit (login_answer_text made)) (codes "941")
        ≡ is_some made }
{}
