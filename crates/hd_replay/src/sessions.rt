//! The lines of an input, answered in order.
ghost use Rattle.std.specs.Prelude.{◌≡◌, ◌<◌, ◌≤◌, ◌+◌, ◌^◌, ◌++◌, ◌∷◌, [], ℕ, Contains, List, IfErr, IfNone};
ghost use Rattle.std.specs.Prelude.{IfOk, IfSome, OnOk, drop, length, map, vec_len};
ghost use Rattle.hd_replay.specs.Inputs.{AreLines, EndsFirst, line_of};
ghost use Rattle.hd_replay.specs.Replays.{AreOfOffice, IsLegalReplay, IsOfLine, ReplayedOnto};
ghost use Rattle.hd_replay.specs.Replays.{before_any_line};
ghost use Rattle.hd_replay.specs.declared.fault.ReplayFault.TheVariants.{Memory};
ghost use Rattle.hd_exchange.specs.Extensions.{extensions_lent};
ghost use Rattle.hd_journal.specs.Books.{IsLegalBook};
ghost use Rattle.hd_session.specs.Scripts.{AreKnownTo, Plays};
ghost use Rattle.hd_session.specs.Sessions.{new_session};

use crate::fault::ReplayFault;
use crate::prefix::{SESSIONS, session_of};
use crate::printing::print_answer;
use hd_date::Stamp18;
use hd_journal::{Journal, Office};
use hd_session::{Extensions, Session, no_session_ends_by_another_fault, script};
use memchr::memchr;
use std::alloc::{AllocError, Allocator};
use std::marker::Model;

/// The sessions of an input, over one journal.
#[derive(Drop)]
pub(crate) struct Sessions<'e, A: Allocator> {
    journal: Journal<A>,
    now: Stamp18,
    /// The session with number 1 is at 0.
    sessions: Vec<Session<'e, A>, A>,
    /// What each session answers to one line of input.
    outs: Vec<Vec<u8, A>, A>,
    /// How many lines of input have been fed to a session.
    lines: u64,
}

impl<'e, A: Allocator> Model for Sessions<'e, A> {
    ghost use Rattle.std.specs.Prelude.{◌≡◌, map, vec_len};
    ghost use Rattle.hd_replay.specs.Replays.{AreEmpty, AreOfOffice, Progress};
    ghost use Rattle.hd_session.specs.Scripts.{AreKnownTo};

    ghost Value = { Progress };

    ghost view = { λ s. record {
      contents = s.journal.contents;
      now = s.now;
      sessions = s.sessions.items;
      turns = s.journal.turns;
      lines = s.lines;
    } };

    ghost invariant = { λ s.
        (vec_len s.sessions ≡ 64)
        × (vec_len s.outs ≡ 64)
        × AreEmpty (map (λ out. out.items) s.outs.items)
        × AreKnownTo s.journal.contents s.sessions.items
        × AreOfOffice s.sessions.items };
}

impl<'e, A: Allocator + Copy> Sessions<'e, A> {
    /// The sessions before any input, each with these extensions, if any.
    pub(crate) fn new(
        alloc: A,
        journal: Journal<A>,
        now: Stamp18,
        extensions: Option<&'e Extensions<A>>,
    ) -> Result<Sessions<'e, A>, AllocError>
        requires new { journal.turns ≡ [] }
        requires legal { IsLegalBook journal.contents journal.turns }
        ensures new { IfOk result (λ sessions. sessions
            ≡ before_any_line journal.contents (extensions_lent extensions.entry) now) }
        ensures legal { IfOk result IsLegalReplay }
    {
        let mut sessions = Vec::new(alloc);
        let mut outs = Vec::new(alloc);
        for _ in 0..SESSIONS {
            put_new(&mut sessions, &mut outs, alloc, extensions)?;
        }
        Ok(Sessions {
            journal,
            now,
            sessions,
            outs,
            lines: 0,
        })
    }

    /// Answers the lines of a text that a line feed ends, and prints what they are answered: how many bytes
    /// they take. Their line feeds become carriage returns.
    ///
    /// # Errors
    /// `NoSession` and `Memory`, as `replay` says.
    pub(crate) fn answer_lines(
        &mut self,
        text: &mut [u8],
        out: &mut Vec<u8, A>,
    ) -> Result<usize, ReplayFault>
        requires { self.old.lines + length text.old < 2 ^ 64 }
        ensures replayed { (lines : List (List ℕ)) × (rest : List ℕ)
            × AreLines 10 text.old lines rest
            × ReplayedOnto self.old self.new lines result out.old.items out.new.items
            × IfOk result (λ used. (used ≤ length text.new) × (drop used text.new ≡ rest)) }
        ensures stops { IfErr result IsOfLine }
        ensures legal { IsLegalReplay self.old → IsLegalReplay self.new }
    {
        let mut used = 0;
        while let Some(end) = line_end(text, used) {
            text[end] = b'\r';
            self.answer_line(&text[used..=end], out)?;
            used = end + 1;
        }
        Ok(used)
    }

    /// Answers one line of input, which a carriage return ends.
    fn answer_line(&mut self, line: &[u8], out: &mut Vec<u8, A>) -> Result<(), ReplayFault>
        requires { self.old.lines + 1 < 2 ^ 64 }
        ensures replayed { (text : List ℕ) → line.now ≡ text ++ 13 ∷ []
            → ReplayedOnto self.old self.new (text ∷ []) result out.old.items out.new.items }
        ensures stops { IfErr result IsOfLine }
        ensures legal { IsLegalReplay self.old → IsLegalReplay self.new }
    {
        match session_of(line) {
            Some((number, piece)) => self.feed(number, piece, out),
            None => Err(ReplayFault::NoSession {
                line: self.lines + 1,
            }),
        }
    }

    /// Feeds a message with its carriage return to a session, and prints what it answers. A session that a
    /// line too long has ended prints `ENDED`; that it was out of memory is a fault.
    fn feed(&mut self, number: usize, piece: &[u8], out: &mut Vec<u8, A>) -> Result<(), ReplayFault>
        requires lines { self.old.lines + 1 < 2 ^ 64 }
        requires from_one { 1 ≤ number }
        requires number { number ≤ 64 }
        ensures replayed { (text : List ℕ) → piece.now ≡ text ++ 13 ∷ []
            → ReplayedOnto self.old self.new (line_of (record { session = number; text = text }) ∷ []) result
            out.old.items out.new.items }
        ensures memory { IfErr result (λ fault. fault ≡ Memory) }
        ensures legal { IsLegalReplay self.old → IsLegalReplay self.new }
    {
        self.lines += 1;
        let at = number - 1;
        play(
            &mut self.journal,
            &self.now,
            &mut self.sessions,
            &mut self.outs,
            at,
            piece,
        );
        let end = self.sessions[at].end();
        let printed = print_answer(out, number, self.outs[at].as_slice(), end);
        self.outs[at].clear();
        printed
    }
}

/// Plays a piece of the stream of a session, which is counted from 0.
fn play<A: Allocator + Copy>(
    journal: &mut Journal<A>,
    now: &Stamp18,
    sessions: &mut Vec<Session<'_, A>, A>,
    outs: &mut Vec<Vec<u8, A>, A>,
    at: usize,
    piece: &[u8],
)
    requires sessions { vec_len sessions.old ≡ 64 }
    requires outs { vec_len outs.old ≡ 64 }
    requires at { at < 64 }
    requires known { AreKnownTo journal.old.contents sessions.old.items }
    requires office { AreOfOffice sessions.old.items }
    ensures plays { Plays ⟦<Journal<A> as Office<A>>⟧ journal.old journal.new
        (record { session = at; piece = record { now = now.now; bytes = piece.now } } ∷ [])
        sessions.old.items sessions.new.items
        (map (λ out. out.items) outs.old.items) (map (λ out. out.items) outs.new.items) }
    ensures sizes { (vec_len sessions.new ≡ 64) × (vec_len outs.new ≡ 64) }
    ensures office { AreOfOffice sessions.new.items }
{
    no_session_ends_by_another_fault::<A, Journal<A>>();
    let _ = script::run(
        journal,
        now,
        sessions.as_mut_slice(),
        &[(at, piece)],
        outs.as_mut_slice(),
    );
}

/// Where the line feed is that ends the line from this place on, if one does.
fn line_end(text: &[u8], from: usize) -> Option<usize>
    requires { from ≤ length text.now }
    ensures found { IfSome result (λ end. EndsFirst 10 text.now from end) }
    ensures none { IfNone result (¬ Contains (drop from text.now) 10) }
{
    let (line, _) = first_line(&text[from..])?;
    Some(from + line.len())
}

/// The first line of a text, without the line feed that ends it, and what is behind that.
fn first_line(text: &[u8]) -> Option<(&[u8], &[u8])>
    ensures found { IfSome result (λ parts.
        (text.now ≡ parts.0.now ++ 10 ∷ parts.1.now) × (¬ Contains parts.0.now 10)) }
    ensures none { IfNone result (¬ Contains text.now 10) }
{
    let end = memchr(b'\n', text)?;
    Some((&text[..end], &text[end + 1..]))
}

/// Adds a new session, and what it answers: nothing yet.
fn put_new<'e, A: Allocator + Copy>(
    sessions: &mut Vec<Session<'e, A>, A>,
    outs: &mut Vec<Vec<u8, A>, A>,
    alloc: A,
    extensions: Option<&'e Extensions<A>>,
) -> Result<(), AllocError>
    ensures sizes { OnOk result ((vec_len sessions.new ≡ vec_len sessions.old + 1)
        × (vec_len outs.new ≡ vec_len outs.old + 1)) }
    ensures session { OnOk result (sessions.new.items
        ≡ sessions.old.items ++ new_session (extensions_lent extensions.entry) ∷ []) }
    ensures out { OnOk result (map (λ out. out.items) outs.new.items
        ≡ map (λ out. out.items) outs.old.items ++ [] ∷ []) }
{
    let session = Session::opened(alloc, extensions)?;
    sessions.push(session)?;
    outs.push(Vec::new(alloc))?;
    Ok(())
}
