//! The lines of a stream.
ghost use Rattle.std.specs.Prelude.{◌≡◌, ◌<◌, ◌≤◌, ◌∷◌, [], Bool, false, IfNone, IfOk, IfSome, Contains};
ghost use Rattle.std.specs.Prelude.{drop, length};
ghost use Rattle.hd_field.specs.declared.stream.TheConstants.{CARRIAGE_RETURN};
ghost use Rattle.hd_field.specs.Streams.{stream_start, begun_after, after_return, lines_in};

use crate::feeds::without_feeds;
use crate::split::line;
use std::alloc::{AllocError, Allocator, Global};
use std::marker::Model;

/// The longest line without its carriage return, in bytes.
pub const LONGEST_LINE: usize = 1024;

/// What has come of a stream's line that hasn't ended.
///
/// A line ends at a carriage return. Line feeds directly after one belong to no line (docs/protocol.md,
/// "Lines"). Past 1,024 bytes a line is too long, and nothing more is heard of the stream.
#[derive(Drop)]
pub struct Stream<A: Allocator = Global> {
    fresh: bool,
    text: Vec<u8, A>,
    too_long: bool,
}

impl<A: Allocator> Model for Stream<A> {
    ghost use Rattle.std.specs.Prelude.{◌≤◌, vec_capacity, vec_len};
    ghost use Rattle.hd_field.specs.Streams.{Begun};

    ghost Value = { Begun };

    ghost view = { λ s. record { fresh = s.fresh; text = s.text.items; too_long = s.too_long } };

    ghost invariant = { λ s. (vec_len s.text ≤ 1024) × (1024 ≤ vec_capacity s.text) };
}

impl<A: Allocator> Stream<A> {
    /// A stream before its first byte, with room for its longest line.
    ///
    /// # Errors
    /// Out of memory.
    pub fn new(alloc: A) -> Result<Stream<A>, AllocError>
        ensures { IfOk result (λ stream. stream ≡ stream_start) }
    {
        let text = Vec::with_capacity(alloc, LONGEST_LINE)?;
        Ok(Stream {
            fresh: false,
            text,
            too_long: false,
        })
    }

    /// Takes the bytes of a piece up to the end of a line, and says how many they
    /// are; `line` then lends the line. Nothing where no line ends in the piece, or
    /// where one grows too long: then all that counts of it is taken.
    pub fn take(&mut self, piece: &[u8]) -> Option<usize>
        ensures line { IfSome result
            (λ used. lines_in self.old piece.now
            ≡ self.new.text ∷ lines_in after_return (drop used piece.now)) }
        ensures rest { IfSome result
            (λ used. begun_after self.old piece.now ≡ begun_after after_return (drop used piece.now)) }
        ensures used { IfSome result (λ used. (0 < used) × (used ≤ length piece.now)) }
        ensures short { IfSome result (λ used. length self.new.text ≤ 1024) }
        ensures no_line { IfNone result (lines_in self.old piece.now ≡ []) }
        ensures all { IfNone result (self.new ≡ begun_after self.old piece.now) }
    {
        if self.too_long {
            return None;
        }
        match line(piece) {
            Some(found) => {
                self.push(found.text);
                if self.too_long {
                    return None;
                }
                Some(found.used)
            }
            None => {
                self.push(piece);
                None
            }
        }
    }

    /// What has come of the line.
    pub fn line(&self) -> &[u8]
        ensures { result.now ≡ self.now.text }
    {
        self.text.as_slice()
    }

    /// Whether the line has grown too long.
    pub fn is_too_long(&self) -> bool
        ensures { result ≡ self.now.too_long }
    {
        self.too_long
    }

    /// Begins the line after a carriage return.
    pub fn begin(&mut self)
        ensures { self.new ≡ after_return }
    {
        self.fresh = true;
        self.text.clear();
        self.too_long = false;
    }

    /// Takes bytes among which is no carriage return.
    fn push(&mut self, bytes: &[u8])
        requires plain { ¬ Contains bytes.now CARRIAGE_RETURN }
        requires short { self.old.too_long ≡ false }
        ensures { self.new ≡ begun_after self.old bytes.now }
    {
        if !self.fresh {
            self.extend(bytes);
            return;
        }
        let rest = without_feeds(bytes);
        if !rest.is_empty() {
            self.fresh = false;
            self.extend(rest);
        }
    }

    /// Takes bytes of a line that has begun.
    fn extend(&mut self, bytes: &[u8])
        requires plain { ¬ Contains bytes.now CARRIAGE_RETURN }
        requires begun { self.old.fresh ≡ false }
        requires short { self.old.too_long ≡ false }
        ensures { self.new ≡ begun_after self.old bytes.now }
    {
        let room = LONGEST_LINE - self.text.as_slice().len();
        if bytes.len() <= room {
            self.text.extend_from_slice(bytes).unwrap();
        } else {
            self.text.extend_from_slice(&bytes[..room]).unwrap();
            self.too_long = true;
        }
    }
}
