//! Readers that say when a read can fail.
ghost use Rattle.std.specs.Prelude.{◌<◌, ◌≤◌, IfErr, IfOk, length};
ghost use Rattle.std.specs.Io.KnownBytes.{ReadConsumes};

use crate::patience::{TRIES_AGAIN, is_tried_again};
use std::io::Read;

/// A read failed.
#[derive(Clone, Copy, Debug, PartialEq, Eq)]
pub struct ReadFailed;

/// A reader that says when a read can fail.
pub trait Input: Read {
    /// The reason for a failure: it holds of the reader behind a read that fails.
    ghost fails: { Self → Type 0 };

    /// Reads once: how many bytes came, 0 at the end of input.
    ///
    /// # Errors
    /// Where the read fails. It takes no byte then.
    fn read_some(&mut self, piece: &mut [u8]) -> Result<usize, ReadFailed>
        requires { 0 < length piece.old }
        ensures count { IfOk result (λ count. count ≤ length piece.new) }
        ensures read { ReadConsumes (Self.remaining self.old) (Self.remaining self.new) result piece.new }
        ensures why { IfErr result (λ _. fails self.new) };
}

/// Reading from memory never fails.
impl Input for &[u8] {
    ghost fails = { λ _. ⊥ };

    fn read_some(&mut self, piece: &mut [u8]) -> Result<usize, ReadFailed> {
        self.read(piece).map_err(|_| ReadFailed)
    }
}

/// Reads once, as `read_some` does, from any reader: a call that is interrupted is tried again, up to 16
/// times in a row.
///
/// # Errors
/// Where the read fails, or is interrupted once more. It takes no byte then.
pub fn read_patiently<R: Read>(from: &mut R, piece: &mut [u8]) -> Result<usize, ReadFailed>
    requires { 0 < length piece.old }
    ensures count { IfOk result (λ count. count ≤ length piece.new) }
    ensures read { ReadConsumes (R.remaining from.old) (R.remaining from.new) result piece.new }
{
    for tries in 0..=TRIES_AGAIN {
        match from.read(piece) {
            Ok(count) => return Ok(count),
            Err(error) => {
                if !is_tried_again(error.kind(), tries) {
                    return Err(ReadFailed);
                }
            }
        }
    }
    Err(ReadFailed)
}
