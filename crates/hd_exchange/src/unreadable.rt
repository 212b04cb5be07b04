//! Messages that can't be read.
ghost use Rattle.hd_exchange.specs.Messages.{AreValuesOf, unreadable_states};

use crate::dates::Dates;
use crate::requests::DeskRequest;
use crate::values::Values;
use hd_catalogue::Catalogue;
use hd_message::UnreadableMessage;
use hd_rules::{Asked, BranchNo, Refusal};
use std::alloc::Allocator;

/// The values of a message that can't be read, as far as they could be.
pub(crate) fn unreadable_values<'a>(message: &UnreadableMessage<'a>) -> Values<'a>
    ensures { AreValuesOf (unreadable_states message.now) result }
{
    Values {
        kind: message.kind,
        date: message.date,
        other: None,
        patron: message.patron,
        copy: message.copy,
        title: message.title,
    }
}

impl<'a, A: Allocator + Copy> DeskRequest<A> for UnreadableMessage<'a> {
    ghost states = { λ k. unreadable_states };

    fn asks(
        &self,
        _catalogue: &Catalogue<A>,
        _own: BranchNo,
        _dates: &Dates,
    ) -> Result<Asked, Refusal> {
        Err(Refusal::Unreadable)
    }
}
