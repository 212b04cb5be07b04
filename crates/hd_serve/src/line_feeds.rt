//! A line feed after each carriage return.
ghost use Rattle.std.specs.Prelude.{◌≡◌, ◌==◌, ◌&&◌, ◌+◌, ◌<◌, ◌≤◌, [], false, length, take};
ghost use Rattle.std.specs.Prelude.{◌++◌, Bool, IfErr, IfOk, MatchResult, OnOk, true};
ghost use Rattle.hd_serve.specs.LineFeeds.{Gives, IsFirstPart, bytes_of, owed, told};

use arrayvec::ArrayVec;
use hd_connection::{Fallible, Output, WriteFailed};
use hd_field::line;
use std::io::{self, ErrorKind, Write};

/// How many bytes are taken at once, at most: as many as the longest reply has.
const MOST: usize = 2_048;

/// Room for these bytes, a carriage return and a line feed.
const ROOM: usize = 2_050;

/// Wraps a writer: adds a line feed after each carriage return.
///
/// A reply, its carriage return and the line feed are one write of the inner writer. If that takes the
/// carriage return and not the line feed, the line feed is owed. It is written at once. If that fails, the next
/// write begins with it, and returns the failure if it fails again.
#[derive(Drop)]
pub(crate) struct LineFeeds<W> {
    to: W,
    owes: bool,
}

/// A part of what is written. A carriage return may end it, and it has no other.
#[derive(Clone, Copy)]
struct Part<'a> {
    plain: &'a [u8],
    is_ended: bool,
}

impl<'a> Part<'a> {
    /// How many bytes it has, with the carriage return that may end it.
    fn len(&self) -> usize
        requires { length self.now.plain.now ≤ 2048 }
        ensures { result ≡ length (bytes_of self.now.plain.now self.now.is_ended) }
    {
        if self.is_ended {
            self.plain.len() + 1
        } else {
            self.plain.len()
        }
    }
}

impl<W: Output> LineFeeds<W> {
    /// Wraps a writer that is owed nothing.
    pub(crate) fn new(to: W) -> LineFeeds<W>
        ensures to { result.to ≡ to }
        ensures owes { result.owes ≡ false }
    {
        LineFeeds { to, owes: false }
    }

    /// Writes once, and returns how many of the bytes were taken. The inner writer gets the line feed that was
    /// owed, and these bytes with a line feed after each carriage return, except for one that is owed then.
    ///
    /// # Errors
    /// Where the inner writer fails. None of the bytes is taken then.
    fn give(&mut self, bytes: &[u8]) -> Result<usize, WriteFailed>
        requires { 0 < length bytes.now }
        ensures some { IfOk result (λ n. (0 < n) × (n ≤ length bytes.now)) }
        ensures gives { MatchResult result
            (λ n. Gives self.old.owes self.new.owes (W.contents self.old.to) (W.contents self.new.to)
            (take n bytes.now))
            (λ _. Gives self.old.owes self.new.owes (W.contents self.old.to) (W.contents self.new.to) []) }
        ensures why { IfErr result (λ _. W.fails self.new.to) }
    {
        self.pay()?;
        let part = first_part(bytes);
        let piece = with_line_feed(&part);
        let given = self.to.write_some(piece.as_slice())?;
        let owes = is_owed(&part, given);
        self.owes = owes;
        // Where the line feed isn't taken, the next write returns the failure.
        let _ = self.pay();
        let taken = given.min(part.len());
        Ok(taken)
    }

    /// Writes the line feed that is owed, if one is.
    ///
    /// # Errors
    /// Where the inner writer fails. The line feed stays owed then.
    fn pay(&mut self) -> Result<(), WriteFailed>
        ensures gives { Gives self.old.owes self.new.owes (W.contents self.old.to) (W.contents self.new.to)
            [] }
        ensures ok { OnOk result (self.new.owes ≡ false) }
        ensures why { IfErr result (λ _. W.fails self.new.to) }
    {
        if self.owes {
            self.to.write_some(b"\n")?;
            self.owes = false;
        }
        Ok(())
    }
}

/// A writer of replies.
pub(crate) trait ReplyWriter: Output {
    /// Whether it sends a line feed after each carriage return. Otherwise it sends the bytes that it is given.
    ghost has_line_feeds: { Bool };
}

impl<W: Output> ReplyWriter for LineFeeds<W> {
    ghost has_line_feeds = { true };
}

impl<W: Write> ReplyWriter for Fallible<W> {
    ghost has_line_feeds = { false };
}

impl<W: Output> Write for LineFeeds<W> {
    ghost contents = { λ feeds. told feeds.owes (W.contents feeds.to) };

    fn write(&mut self, bytes: &[u8]) -> io::Result<usize> {
        if bytes.is_empty() {
            return Ok(0);
        }
        match self.write_some(bytes) {
            Ok(count) => Ok(count),
            Err(WriteFailed) => Err(io::Error::from(ErrorKind::Other)),
        }
    }

    fn flush(&mut self) -> io::Result<()> {
        self.to.flush()
    }
}

impl<W: Output> Output for LineFeeds<W> {
    ghost fails = { λ feeds. W.fails feeds.to };

    fn write_some(&mut self, bytes: &[u8]) -> Result<usize, WriteFailed> {
        self.give(bytes)
    }
}

/// The first bytes of some, up to and with the first carriage return.
fn first_part(bytes: &[u8]) -> Part<'_>
    requires { 0 < length bytes.now }
    ensures { IsFirstPart bytes.now result.plain.now result.is_ended }
{
    let (first, _) = bytes.split_at(bytes.len().min(MOST));
    match line(first) {
        Some(line) => Part {
            plain: line.text,
            is_ended: true,
        },
        None => Part {
            plain: first,
            is_ended: false,
        },
    }
}

/// A part, and the line feed after its carriage return.
fn with_line_feed(part: &Part<'_>) -> ArrayVec<u8, ROOM>
    requires { length part.now.plain.now ≤ 2048 }
    ensures { result.items ≡ bytes_of part.now.plain.now part.now.is_ended ++ owed part.now.is_ended }
{
    let mut piece = ArrayVec::new();
    piece.try_extend_from_slice(part.plain).unwrap();
    if part.is_ended {
        piece.push(b'\r');
        piece.push(b'\n');
    }
    piece
}

/// Whether the line feed of a part is owed after `given` of its bytes were written.
fn is_owed(part: &Part<'_>, given: usize) -> bool
    requires { length part.now.plain.now ≤ 2048 }
    ensures { result ≡ (part.now.is_ended && (given == length part.now.plain.now + 1)) }
{
    part.is_ended && given == part.plain.len() + 1
}
