//! Lists with the values of records, those of each after those of the one before.
#![tactic(auto)]

ghost use Rattle.std.specs.Prelude.{◌≡◌, ◌≤◌, ◌<◌, ◌+◌, ◌++◌, OnErr, OnOk, drop, length, take};
ghost use Rattle.std.specs.Prelude.{vec_capacity, vec_len};
ghost use Rattle.hd_records.specs.Room.{room_of_four};

use crate::slots::Span;
use std::alloc::{AllocError, Allocator};

/// A place in a list has 32 bits.
const MOST_VALUES: usize = 4_294_967_295;

/// Makes room for the values of one more record. It is out of memory only where there was no room, and
/// then changes no list.
pub(crate) fn ready_for_four<T, A: Allocator>(list: &mut Vec<T, A>) -> Result<(), AllocError>
    ensures items { list.new.items ≡ list.old.items }
    ensures len { vec_len list.new ≡ vec_len list.old }
    ensures ok { OnOk result (0 < room_of_four (vec_len list.new) (vec_capacity list.new)) }
    ensures full { OnErr result (room_of_four (vec_len list.old) (vec_capacity list.old) ≡ 0) }
    ensures capacity { vec_capacity list.old ≤ vec_capacity list.new }
{
    if list.len() > MOST_VALUES - 4 {
        return Err(AllocError);
    }
    list.reserve(4)
}

/// Where the values of one more record will be.
pub(crate) fn place_behind<T, A: Allocator>(list: &Vec<T, A>, values: &[T]) -> Span
    requires few { length values.now ≤ 4 }
    requires room { 0 < room_of_four (vec_len list.now) (vec_capacity list.now) }
    ensures first { result.first ≡ vec_len list.now }
    ensures count { result.count ≡ length values.now }
{
    Span {
        first: list.len() as u32,
        count: values.len() as u8,
    }
}

/// Puts the values of one more record after the others. It takes no memory.
pub(crate) fn append<T: Copy, A: Allocator>(list: &mut Vec<T, A>, values: &[T])
    requires few { length values.now ≤ 4 }
    requires room { 0 < room_of_four (vec_len list.old) (vec_capacity list.old) }
    ensures items { list.new.items ≡ list.old.items ++ values.now }
    ensures len { vec_len list.new ≡ vec_len list.old + length values.now }
    ensures capacity { vec_capacity list.new ≡ vec_capacity list.old }
{
    for value in values {
        list.push_reserved(*value);
    }
}

/// The values of a record.
pub(crate) fn values_at<T>(list: &[T], span: Span) -> &[T]
    requires { span.first + span.count ≤ length list.now }
    ensures { result.now ≡ take span.count (drop span.first list.now) }
{
    let first = span.first as usize;
    &list[first..first + span.count as usize]
}
