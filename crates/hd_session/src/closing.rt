//! Closing a reply: its trailer, and its carriage return.
ghost use Rattle.std.specs.Prelude.{◌≡◌, ◌<◌, ◌≤◌, ◌+◌, ◌∷◌, [], ◌++◌, drop, take, true};
ghost use Rattle.std.specs.Prelude.{vec_capacity, vec_len};
ghost use Rattle.hd_exchange.specs.Works.{Extends};
ghost use Rattle.hd_session.specs.Trailers.{text_and_trailer, send_again};

use hd_guard::{Seq, seal};
use hd_message::{Reply, write};
use std::alloc::Allocator;

/// Closes the reply that begins at `from`: by a trailer where its line was checked, and a carriage return.
/// There is room for them.
pub(crate) fn close<A: Allocator>(
    out: &mut Vec<u8, A>,
    from: usize,
    checked: bool,
    digit: Option<Seq>,
)
    requires from { from ≤ vec_len out.old }
    requires room { vec_len out.old + 10 ≤ vec_capacity out.old }
    ensures text { out.new.items
        ≡ take from out.old.items ++ text_and_trailer checked digit (drop from out.old.items) }
    ensures short { vec_len out.new ≤ vec_len out.old + 10 }
    ensures capacity { vec_capacity out.old ≤ vec_capacity out.new }
{
    if checked {
        close_checked(out, from, digit);
    } else {
        put_return(out);
    }
}

/// The same of a reply to a line with a trailer.
fn close_checked<A: Allocator>(out: &mut Vec<u8, A>, from: usize, digit: Option<Seq>)
    requires from { from ≤ vec_len out.old }
    requires room { vec_len out.old + 10 ≤ vec_capacity out.old }
    ensures text { out.new.items
        ≡ take from out.old.items ++ text_and_trailer true digit (drop from out.old.items) }
    ensures short { vec_len out.new ≤ vec_len out.old + 10 }
    ensures capacity { vec_capacity out.old ≤ vec_capacity out.new }
{
    seal(out, from, digit).unwrap();
    put_return(out);
}

/// Appends a carriage return, for which there is room.
fn put_return<A: Allocator>(out: &mut Vec<u8, A>)
    requires { vec_len out.old < vec_capacity out.old }
    ensures { Extends out.old out.new (13 ∷ []) }
{
    out.push(b'\r').unwrap();
}

/// Appends a 96, for which there is room.
pub(crate) fn put_send_again<A: Allocator>(out: &mut Vec<u8, A>, checked: bool)
    requires { vec_len out.old + 12 ≤ vec_capacity out.old }
    ensures text { Extends out.old out.new (send_again checked) }
    ensures short { vec_len out.new ≤ vec_len out.old + 12 }
{
    let from = out.len();
    write(&Reply::RequestScResend, out).unwrap();
    close(out, from, checked, None);
}
