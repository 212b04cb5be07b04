//! Renewals (29).
ghost use Rattle.hd_catalogue.specs.Contents.{Contents};
ghost use Rattle.hd_exchange.specs.Messages.{AreValuesOf, renew_states};

use crate::dates::Dates;
use crate::names::title_of;
use crate::requests::DeskRequest;
use crate::values::Values;
use hd_catalogue::Catalogue;
use hd_message::{DeskKind, RenewRequest};
use hd_rules::{Action, Asked, BranchNo, Cancel, Command, Refusal};
use std::alloc::Allocator;

/// The values of a renewal.
pub(crate) fn renew_values<'a>(request: &RenewRequest<'a>) -> Values<'a>
    ensures { (k : Contents) → AreValuesOf (renew_states k request.now) result }
{
    Values {
        kind: DeskKind::Renew,
        date: Some(request.date),
        other: None,
        patron: Some(request.patron),
        copy: Some(request.copy),
        title: None,
    }
}

impl<'a, A: Allocator + Copy> DeskRequest<A> for RenewRequest<'a> {
    ghost states = { renew_states };

    fn asks(
        &self,
        catalogue: &Catalogue<A>,
        _own: BranchNo,
        dates: &Dates,
    ) -> Result<Asked, Refusal> {
        let stamp = dates.transaction.ok_or(Refusal::BadDate)?;
        let patron = catalogue.patron(self.patron).ok_or(Refusal::UnknownPatron)?;
        let copy = catalogue.copy(self.copy).ok_or(Refusal::UnknownItem)?;
        title_of(catalogue, self.title, &Some(copy)).ok_or(Refusal::UnknownTitle)?;
        if self.cancels {
            return Ok(Asked::Cancel(Cancel::Renewal(copy)));
        }
        Ok(Asked::Command(Command {
            day: stamp.day(),
            action: Action::Renewal { patron, copy },
        }))
    }
}
