//! The replies to checkins.
ghost use Rattle.std.specs.Prelude.{◌≡◌, ◌≤◌, [], length};
ghost use Rattle.std.specs.Option.{option_copied, unwrap_or};
ghost use Rattle.hd_catalogue.specs.Contents.{facts_of};
ghost use Rattle.hd_message.specs.Lengths.{IsPrintedDate, IsName, IsReturnShort};
ghost use Rattle.hd_rules.specs.Known.{IsKnownState};
ghost use Rattle.hd_exchange.specs.CheckinReplies.{IsWhereabouts};
ghost use Rattle.hd_exchange.specs.Messages.{bytes_repeated};

use crate::repeated::RepeatedValues;
use hd_catalogue::Catalogue;
use hd_message::{CheckinOutcome, CheckinReply, Whereabouts};
use hd_rules::{CopyState, HoldPlace};
use std::alloc::Allocator;

/// The reply to a checkin with this outcome.
pub(crate) fn checkin_reply<'a, A: Allocator + Copy>(
    catalogue: &'a Catalogue<A>,
    repeated: &'a RepeatedValues<'a>,
    outcome: CheckinOutcome<'a>,
) -> CheckinReply<'a>
    ensures date { result.date.now ≡ repeated.now.date }
    ensures institution { result.institution.now ≡ catalogue.now.institution }
    ensures copy { result.copy.now ≡ unwrap_or (option_copied repeated.now.copy) [] }
    ensures outcome { result.outcome ≡ outcome.entry }

    // It prints a date, the institution's name, and no more of the message than it repeats.
    ensures short { IsPrintedDate result.date.now
        × IsName result.institution.now
        × (length result.copy.now ≤ bytes_repeated repeated.now) }
{
    CheckinReply {
        date: &repeated.date,
        institution: catalogue.institution(),
        copy: repeated.copy.unwrap_or(b""),
        outcome,
    }
}

/// Where a copy is that was taken in. No return leaves a copy on loan: it would show as the open shelf.
pub(crate) fn whereabouts<'a, A: Allocator + Copy>(
    catalogue: &'a Catalogue<A>,
    state: &CopyState,
) -> Whereabouts<'a>
    requires { IsKnownState (facts_of catalogue.now) state.now }
    ensures whereabouts { IsWhereabouts catalogue.now state.now result }
    ensures short { IsReturnShort result }
{
    match state {
        CopyState::Shelf(_) | CopyState::OnLoan(_) => Whereabouts::OpenShelf,
        CopyState::OnHoldShelf(HoldPlace { place, .. }) => Whereabouts::HoldShelf { place: *place },
        CopyState::InTransit(transit) => Whereabouts::Transit {
            branch: catalogue.branch_name(transit.to),
        },
    }
}
