//! The bytes of a line.

ghost use Rattle.std.specs.Prelude.{◌≡◌, ◌↔◌, None, IfOk, IsOk, IsTrue, option_map};
ghost use Rattle.hd_rules.specs.Same.{same_line as is_same_line};

use std::alloc::{AllocError, Allocator};
use std::marker::Model;

/// A copy of a message's line.
#[derive(Drop)]
pub(crate) struct Line<A: Allocator> {
    bytes: Vec<u8, A>,
}

impl<A: Allocator> Model for Line<A> {
    ghost use Rattle.std.specs.Prelude.{List, ℕ};

    ghost Value = { List ℕ };

    ghost view = { λ line. line.bytes.items };
}

impl<A: Allocator> Line<A> {
    /// A copy of these bytes.
    fn copy_of(alloc: A, bytes: &[u8]) -> Result<Line<A>, AllocError>
        ensures { IfOk result (λ line. line ≡ bytes.now) }
    {
        let bytes = Vec::from_slice(alloc, bytes)?;
        Ok(Line { bytes })
    }

    /// The bytes.
    fn bytes(&self) -> &[u8]
        ensures { result.now ≡ self.now }
    {
        self.bytes.as_slice()
    }
}

/// A copy of the line, where there is one. Without a line no memory is needed.
pub(crate) fn copy_if_any<A: Allocator>(
    alloc: A,
    line: Option<&[u8]>,
) -> Result<Option<Line<A>>, AllocError>
    ensures same { IfOk result (λ copy. copy ≡ option_map (λ bytes. bytes.now) line.entry) }
    ensures no_line { line.entry ≡ None → IsOk result }
{
    match line {
        None => Ok(None),
        Some(bytes) => Ok(Some(Line::copy_of(alloc, bytes)?)),
    }
}

/// The bytes of a line, where there is one.
pub(crate) fn bytes_if_any<A: Allocator>(line: &Option<Line<A>>) -> Option<&[u8]>
    ensures { option_map (λ bytes. bytes.now) result ≡ line.now }
{
    line.as_ref().map(|line| line.bytes())
}

/// Whether two lines are the same bytes. By this test the turn machine recognizes a repeat.
pub(crate) fn same_line(one: &[u8], other: &[u8]) -> bool
    ensures exact { IsTrue result ↔ (one.now ≡ other.now) }
    ensures told { result ≡ is_same_line one.now other.now }
{
    one == other
}

/// Whether two messages carried the same line, or both none.
pub(crate) fn same_lines(one: Option<&[u8]>, other: Option<&[u8]>) -> bool
    ensures { IsTrue result
        ↔ (option_map (λ bytes. bytes.now) one.entry ≡ option_map (λ bytes. bytes.now) other.entry) }
{
    match (one, other) {
        (None, None) => true,
        (Some(bytes), Some(again)) => same_line(bytes, again),
        _ => false,
    }
}
