//! Checkouts (11).
ghost use Rattle.std.specs.Prelude.{◌≡◌, ◌<◌};
ghost use Rattle.hd_message.specs.declared.kind.DeskKind.TheVariants as kind;
ghost use Rattle.hd_rules.specs.Facts.{Facts};
ghost use Rattle.hd_rules.specs.Known.{IsKnownAction};
ghost use Rattle.hd_catalogue.specs.Contents.{Contents};
ghost use Rattle.hd_exchange.specs.Asks.{checkout_action, kind_of_action};
ghost use Rattle.hd_exchange.specs.Messages.{AreValuesOf, checkout_states};

use crate::dates::Dates;
use crate::requests::DeskRequest;
use crate::values::Values;
use hd_catalogue::Catalogue;
use hd_message::{CheckoutRequest, DeskKind};
use hd_rules::{Action, Asked, BranchNo, Cancel, Command, CopyNo, Day, PatronNo, Refusal};
use std::alloc::Allocator;

/// The values of a checkout.
pub(crate) fn checkout_values<'a>(request: &CheckoutRequest<'a>) -> Values<'a>
    ensures { (k : Contents) → AreValuesOf (checkout_states k request.now) result }
{
    Values {
        kind: DeskKind::Checkout,
        date: Some(request.date),
        other: request.due,
        patron: Some(request.patron),
        copy: Some(request.copy),
        title: None,
    }
}

impl<'a, A: Allocator + Copy> DeskRequest<A> for CheckoutRequest<'a> {
    ghost states = { checkout_states };

    fn asks(
        &self,
        catalogue: &Catalogue<A>,
        _own: BranchNo,
        dates: &Dates,
    ) -> Result<Asked, Refusal> {
        let stamp = dates.transaction.ok_or(Refusal::BadDate)?;
        let due = dates.other.ok_or(Refusal::BadDate)?;
        let patron = catalogue.patron(self.patron).ok_or(Refusal::UnknownPatron)?;
        let copy = catalogue.copy(self.copy).ok_or(Refusal::UnknownItem)?;
        if self.cancels {
            return Ok(Asked::Cancel(Cancel::Checkin(copy)));
        }
        Ok(Asked::Command(Command {
            day: stamp.day(),
            action: action(self.renews, due, patron, copy),
        }))
    }
}

/// What a checkout does: it is off line where it states a due day.
fn action(renews: bool, due: Option<Day>, patron: PatronNo, copy: CopyNo) -> Action
    ensures action { result ≡ checkout_action renews due patron copy }
    ensures kind { kind_of_action result ≡ kind.Checkout }
    ensures known { (k : Facts) → patron < k.patrons → copy < k.copies → IsKnownAction k result }
{
    match due {
        Some(due) => Action::OffLine { patron, copy, due },
        None => Action::Checkout {
            patron,
            copy,
            may_renew: renews,
        },
    }
}
