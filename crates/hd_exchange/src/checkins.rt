//! Checkins (09).
ghost use Rattle.std.specs.Prelude.{◌≡◌, ◌<◌};
ghost use Rattle.std.specs.Option.{option_copied};
ghost use Rattle.hd_catalogue.specs.Contents.{Contents, facts_of};
ghost use Rattle.hd_exchange.specs.Asks.{return_branch};
ghost use Rattle.hd_exchange.specs.Messages.{AreValuesOf, checkin_states};

use crate::dates::Dates;
use crate::requests::DeskRequest;
use crate::values::Values;
use hd_catalogue::Catalogue;
use hd_message::{CheckinRequest, DeskKind};
use hd_rules::{Action, Asked, BranchNo, Cancel, Command, Refusal};
use std::alloc::Allocator;

/// The values of a checkin.
pub(crate) fn checkin_values<'a>(request: &CheckinRequest<'a>) -> Values<'a>
    ensures { (k : Contents) → AreValuesOf (checkin_states k request.now) result }
{
    Values {
        kind: DeskKind::Checkin,
        date: Some(request.date),
        other: None,
        patron: None,
        copy: Some(request.copy),
        title: None,
    }
}

impl<'a, A: Allocator + Copy> DeskRequest<A> for CheckinRequest<'a> {
    ghost states = { checkin_states };

    fn asks(
        &self,
        catalogue: &Catalogue<A>,
        own: BranchNo,
        dates: &Dates,
    ) -> Result<Asked, Refusal> {
        let stamp = dates.transaction.ok_or(Refusal::BadDate)?;
        let copy = catalogue.copy(self.copy).ok_or(Refusal::UnknownItem)?;
        if self.cancels {
            return Ok(Asked::Cancel(Cancel::Checkout(copy)));
        }
        let branch = return_branch(catalogue, own, self.branch);
        Ok(Asked::Command(Command {
            day: stamp.day(),
            action: Action::Checkin { copy, branch },
        }))
    }
}

/// The branch of a name, or the terminal's own where there is none or no such branch.
fn return_branch<A: Allocator + Copy>(
    catalogue: &Catalogue<A>,
    own: BranchNo,
    name: Option<&[u8]>,
) -> BranchNo
    requires { own < (facts_of catalogue.now).branches }
    ensures branch { result ≡ return_branch catalogue.now own (option_copied name.entry) }
    ensures known { result < (facts_of catalogue.now).branches }
{
    let Some(name) = name else {
        return own;
    };
    match catalogue.branch(name) {
        Some(branch) => branch,
        None => own,
    }
}
