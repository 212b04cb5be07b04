//! Exact tests of equality: what two turns ask, and what they were replied.
ghost use Rattle.std.specs.Prelude.{◌≡◌, ◌↔◌, IsTrue};
ghost use Rattle.hd_rules.specs.Same.{same_asked as is_same_asked};

use crate::replies::{ItemView, Refusal, Reply, TurnReply};
use crate::turns::Asked;

/// Whether two turns ask the same. The turn machine recognizes a repeat by this test.
pub fn same_asked(one: &Asked, other: &Asked) -> bool
    ensures exact { IsTrue result ↔ (one.now ≡ other.now) }
    ensures told { result ≡ is_same_asked one.now other.now }
{
    one == other
}

/// Whether two turns were replied the same.
pub fn same_turn_reply(one: &TurnReply, other: &TurnReply) -> bool
    ensures { IsTrue result ↔ (one.now ≡ other.now) }
{
    match (one, other) {
        (
            TurnReply::Done { number, reply },
            TurnReply::Done {
                number: again,
                reply: told,
            },
        ) => number == again && same_reply(reply, told),
        (TurnReply::Refused(why), TurnReply::Refused(again)) => same_refusal(why, again),
        (TurnReply::Cancelled { number }, TurnReply::Cancelled { number: again }) => {
            number == again
        }
        (TurnReply::Item(view), TurnReply::Item(again)) => same_view(view, again),
        _ => false,
    }
}

/// Whether two accepted commands were replied the same.
fn same_reply(one: &Reply, other: &Reply) -> bool
    ensures { IsTrue result ↔ (one.now ≡ other.now) }
{
    one == other
}

/// Whether two refusals are the same.
fn same_refusal(one: &Refusal, other: &Refusal) -> bool
    ensures { IsTrue result ↔ (one.now ≡ other.now) }
{
    one == other
}

/// Whether two queries were shown the same.
fn same_view(one: &ItemView, other: &ItemView) -> bool
    ensures { IsTrue result ↔ (one.now ≡ other.now) }
{
    one == other
}
