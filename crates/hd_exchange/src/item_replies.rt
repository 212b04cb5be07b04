//! The replies to questions about copies.
ghost use Rattle.std.specs.Prelude.{◌≡◌, ◌<◌, ◌≤◌, [], Ok, length};
ghost use Rattle.std.specs.Option.{option_copied, unwrap_or};
ghost use Rattle.hd_catalogue.specs.Contents.{facts_of};
ghost use Rattle.hd_message.specs.Lengths.{IsCopyShort, IsPrintedDate, IsItemShort};
ghost use Rattle.hd_rules.specs.Known.{IsKnownState};
ghost use Rattle.hd_rules.specs.declared.replies.TurnReply.TheVariants as turn;
ghost use Rattle.hd_rules.specs.declared.turns.Asked.TheVariants as ask;
ghost use Rattle.hd_exchange.specs.ItemReplies.{IsCirculation, IsItemOutcome};
ghost use Rattle.hd_exchange.specs.Messages.{bytes_repeated};

use crate::repeated::RepeatedValues;
use hd_catalogue::Catalogue;
use hd_message::{Circulation, ItemOutcome, ItemReply};
use hd_rules::{CopyNo, CopyState, ItemView};
use std::alloc::Allocator;

/// The reply to a question with this outcome.
pub(crate) fn item_reply<'a>(
    repeated: &'a RepeatedValues<'a>,
    outcome: ItemOutcome<'a>,
) -> ItemReply<'a>
    ensures date { result.date.now ≡ repeated.now.date }
    ensures copy { result.copy.now ≡ unwrap_or (option_copied repeated.now.copy) [] }
    ensures outcome { result.outcome ≡ outcome.entry }

    // It prints a date, and no more of the message than it repeats.
    ensures short { IsPrintedDate result.date.now × (length result.copy.now ≤ bytes_repeated repeated.now) }
{
    ItemReply {
        date: &repeated.date,
        copy: repeated.copy.unwrap_or(b""),
        outcome,
    }
}

/// What is said of a copy that is shown.
pub(crate) fn outcome_of_view<'a, A: Allocator + Copy>(
    catalogue: &'a Catalogue<A>,
    copy: CopyNo,
    view: &'a ItemView,
) -> ItemOutcome<'a>
    requires copy { copy < (facts_of catalogue.now).copies }
    requires state { IsKnownState (facts_of catalogue.now) view.now.state }
    ensures outcome { IsItemOutcome catalogue.now (Ok (ask.Item copy)) (turn.Item view.now) result }
    ensures short { IsItemShort result }
{
    ItemOutcome::Found {
        holds: u64::from(view.holds),
        title: catalogue.title_name(catalogue.title_of(copy)),
        home: catalogue.branch_name(catalogue.home(copy)),
        circulation: circulation(catalogue, &view.state),
    }
}

/// Where a copy is.
fn circulation<'a, A: Allocator + Copy>(
    catalogue: &'a Catalogue<A>,
    state: &'a CopyState,
) -> Circulation<'a>
    requires { IsKnownState (facts_of catalogue.now) state.now }
    ensures circulation { IsCirculation catalogue.now state.now result }
    ensures short { IsCopyShort result }
{
    match state {
        CopyState::Shelf(branch) => Circulation::OpenShelf {
            branch: catalogue.branch_name(*branch),
        },
        CopyState::OnLoan(loan) => Circulation::Loan { due: &loan.due },
        CopyState::OnHoldShelf(shelved) => Circulation::HoldShelf {
            branch: catalogue.branch_name(shelved.branch),
        },
        CopyState::InTransit(_) => Circulation::Transit,
    }
}
