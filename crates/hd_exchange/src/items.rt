//! Questions about a copy (17).
ghost use Rattle.hd_catalogue.specs.Contents.{Contents};
ghost use Rattle.hd_exchange.specs.Messages.{AreValuesOf, item_states};

use crate::dates::Dates;
use crate::requests::DeskRequest;
use crate::values::Values;
use hd_catalogue::Catalogue;
use hd_message::{DeskKind, ItemRequest};
use hd_rules::{Asked, BranchNo, Refusal};
use std::alloc::Allocator;

/// The values of a question about a copy.
pub(crate) fn item_values<'a>(request: &ItemRequest<'a>) -> Values<'a>
    ensures { (k : Contents) → AreValuesOf (item_states k request.now) result }
{
    Values {
        kind: DeskKind::Item,
        date: Some(request.date),
        other: None,
        patron: None,
        copy: Some(request.copy),
        title: None,
    }
}

impl<'a, A: Allocator + Copy> DeskRequest<A> for ItemRequest<'a> {
    ghost states = { item_states };

    fn asks(
        &self,
        catalogue: &Catalogue<A>,
        _own: BranchNo,
        dates: &Dates,
    ) -> Result<Asked, Refusal> {
        dates.transaction.ok_or(Refusal::BadDate)?;
        let copy = catalogue.copy(self.copy).ok_or(Refusal::UnknownItem)?;
        Ok(Asked::Item(copy))
    }
}
