//! Writers that say when a write can fail.
ghost use Rattle.std.specs.Prelude.{◌≡◌, ◌+◌, ◌<◌, ◌≤◌, ⊤, [], IfErr, IfOk, List, MatchResult, OnErr, ℕ};
ghost use Rattle.std.specs.Prelude.{length, take, vec_capacity, vec_len};
ghost use Rattle.std.specs.Io.KnownBytes.{Appends, Keeps};
ghost use Rattle.hd_connection.specs.Streams.{IsCutShort};

use crate::patience::{TRIES_AGAIN, is_tried_again};
use std::alloc::Allocator;
use std::io::{Sink, Write};

/// A write failed, or took no byte.
#[derive(Clone, Copy, Debug, PartialEq, Eq)]
pub struct WriteFailed;

/// A writer that says when a write can fail.
pub trait Output: Write {
    /// The reason for a failure: it holds of the writer behind a write that fails.
    ghost fails: { Self → Type 0 };

    /// Writes once: how many bytes were taken, at least one.
    ///
    /// # Errors
    /// Where the write fails, or takes no byte. Nothing is written then.
    fn write_some(&mut self, bytes: &[u8]) -> Result<usize, WriteFailed>
        requires { 0 < length bytes.now }
        ensures some { IfOk result (λ n. (0 < n) × (n ≤ length bytes.now)) }
        ensures wrote { MatchResult result
            (λ n. Appends (Self.contents self.old) (Self.contents self.new) (take n bytes.now))
            (λ _. Keeps (Self.contents self.old) (Self.contents self.new)) }
        ensures why { IfErr result (λ _. fails self.new) };
}

/// Writing to a slice fails where it is full.
impl Output for &mut [u8] {
    ghost fails = { λ room. room.now ≡ [] };

    fn write_some(&mut self, bytes: &[u8]) -> Result<usize, WriteFailed> {
        match self.write(bytes) {
            Ok(0) | Err(_) => Err(WriteFailed),
            Ok(count) => Ok(count),
        }
    }
}

/// Writing to a vector fails where it has no room for the bytes and gets none, out of memory. Of a vector
/// alone that says nothing, since for each there are bytes that are too many; `full` says it of the bytes.
impl<A: Allocator> Output for Vec<u8, A> {
    ghost fails = { λ _. ⊤ };

    fn write_some(&mut self, bytes: &[u8]) -> Result<usize, WriteFailed>
        requires { 0 < length bytes.now }
        ensures some { IfOk result (λ n. (0 < n) × (n ≤ length bytes.now)) }
        ensures wrote { MatchResult result
            (λ n. Appends (Some self.old.items) (Some self.new.items) (take n bytes.now))
            (λ _. Keeps (Some self.old.items) (Some self.new.items)) }
        ensures why { IfErr result (λ _. ⊤) }
        ensures all { IfOk result (λ n. n ≡ length bytes.now) }
        ensures full { OnErr result (vec_capacity self.old < vec_len self.old + length bytes.now) }
    {
        match self.extend_from_slice(bytes) {
            Ok(()) => Ok(bytes.len()),
            Err(_) => Err(WriteFailed),
        }
    }
}

/// Writing to a sink never fails.
impl Output for Sink {
    ghost fails = { λ _. ⊥ };

    fn write_some(&mut self, bytes: &[u8]) -> Result<usize, WriteFailed> {
        self.write(bytes).map_err(|_| WriteFailed)
    }
}

/// Writes all of the bytes.
///
/// # Errors
/// Where a write fails, or takes no byte. A beginning of the bytes is written then, and not all.
pub fn write_all<W: Output>(to: &mut W, bytes: &[u8]) -> Result<(), WriteFailed>
    ensures wrote { MatchResult result
        (λ _. Appends (W.contents to.old) (W.contents to.new) bytes.now)
        (λ _. (part : List ℕ) × IsCutShort bytes.now part
        × Appends (W.contents to.old) (W.contents to.new) part) }
    ensures why { IfErr result (λ _. W.fails to.new) }
{
    let mut done = 0;
    while done < bytes.len() {
        let (_, rest) = bytes.split_at(done);
        done += to.write_some(rest)?;
    }
    Ok(())
}

/// Writes once, as `write_some` does, to any writer: a call that is interrupted is tried again, up to 16
/// times in a row.
///
/// # Errors
/// Where the write fails, takes no byte, or is interrupted once more. Nothing is written then.
pub fn write_patiently<W: Write>(to: &mut W, bytes: &[u8]) -> Result<usize, WriteFailed>
    ensures some { IfOk result (λ n. (0 < n) × (n ≤ length bytes.now)) }
    ensures wrote { MatchResult result
        (λ n. Appends (W.contents to.old) (W.contents to.new) (take n bytes.now))
        (λ _. Keeps (W.contents to.old) (W.contents to.new)) }
{
    for tries in 0..=TRIES_AGAIN {
        match to.write(bytes) {
            Ok(0) => return Err(WriteFailed),
            Ok(count) => return Ok(count),
            Err(error) => {
                if !is_tried_again(error.kind(), tries) {
                    return Err(WriteFailed);
                }
            }
        }
    }
    Err(WriteFailed)
}
