//! The replies to checkins and to questions about copies with sorter fields: for whom a copy is.
ghost use Rattle.std.specs.Prelude.{◌≡◌, ◌<◌, ◌≤◌, Ok, Some};
ghost use Rattle.hd_catalogue.specs.Contents.{facts_of};
ghost use Rattle.hd_message.specs.Lengths.{IsDestinationShort, IsRecipientShort, IsShort};
ghost use Rattle.hd_rules.specs.Facts.{Facts};
ghost use Rattle.hd_rules.specs.Known.{IsKnown, IsKnownPatron, IsKnownState};
ghost use Rattle.hd_rules.specs.Known.{IsKnownTurnReply};
ghost use Rattle.hd_rules.specs.Replies.{IsReplyTo};
ghost use Rattle.hd_rules.specs.declared.turns.Asked.TheVariants as ask;
ghost use Rattle.hd_exchange.specs.Asks.{kind_of};
ghost use Rattle.hd_exchange.specs.Extensions.{extensions_lent};
ghost use Rattle.hd_exchange.specs.Messages.{bytes_repeated};
ghost use Rattle.hd_exchange.specs.Sorting.{IsDestination, IsItemSorted, IsRecipient, IsRecipientIfAny};
ghost use Rattle.hd_exchange.specs.Sorting.{IsReturnSorted, IsSortedReply, awaited_by};

use crate::extensions::{Extensions, name_of};
use crate::item_replies::{item_reply, outcome_of_view};
use crate::repeated::RepeatedValues;
use crate::replies::reply_to;
use hd_catalogue::Catalogue;
use hd_message::{Destination, Recipient, Reply, SorterItemReply, SorterReply};
use hd_rules::{
    Asked, BranchNo, CopyNo, CopyState, HoldPlace, ItemView, PatronNo, Reply as Told, TitleNo,
    TurnReply,
};
use std::alloc::Allocator;

/// The reply, with sorter fields, to a message whose turn asked this and got this answer.
pub(crate) fn sorted_reply<'a, A: Allocator + Copy>(
    catalogue: &'a Catalogue<A>,
    extensions: Option<&'a Extensions<A>>,
    repeated: &'a RepeatedValues<'a>,
    asked: &Asked,
    told: &'a TurnReply,
) -> Reply<'a>
    requires fits { IsReplyTo asked.now told.now }
    requires asked { IsKnown (facts_of catalogue.now) asked.now }
    requires told { IsKnownTurnReply (facts_of catalogue.now) told.now }
    requires short { bytes_repeated repeated.now ≤ 1024 }
    ensures reply { IsSortedReply catalogue.now (extensions_lent extensions.entry).patrons (kind_of asked.now)
        repeated.now (Ok asked.now) told.now result }
    ensures short { IsShort result }
{
    match (asked, told) {
        (
            _,
            TurnReply::Done {
                reply: Told::Returned { title, home, now },
                ..
            },
        ) => sorted_return(catalogue, extensions, repeated, *title, *home, now),
        (Asked::Item(copy), TurnReply::Item(view)) => {
            sorted_item(catalogue, extensions, repeated, *copy, view)
        }
        _ => reply_to(catalogue, repeated, asked, told),
    }
}

/// The reply to a checkin whose copy is back.
fn sorted_return<'a, A: Allocator + Copy>(
    catalogue: &'a Catalogue<A>,
    extensions: Option<&'a Extensions<A>>,
    repeated: &'a RepeatedValues<'a>,
    title: TitleNo,
    home: BranchNo,
    there: &CopyState,
) -> Reply<'a>
    requires title { title < (facts_of catalogue.now).titles }
    requires home { home < (facts_of catalogue.now).branches }
    requires there { IsKnownState (facts_of catalogue.now) there.now }
    requires short { bytes_repeated repeated.now ≤ 1024 }
    ensures reply { IsReturnSorted catalogue.now (extensions_lent extensions.entry).patrons repeated.now
        title home there.now result }
    ensures short { IsShort result }
{
    Reply::Sorter(SorterReply {
        date: &repeated.date,
        institution: catalogue.institution(),
        copy: repeated.copy.unwrap_or(b""),
        home: catalogue.branch_name(home),
        title: catalogue.title_name(title),
        destination: destination(catalogue, extensions, there),
    })
}

/// The reply to a question about a copy.
fn sorted_item<'a, A: Allocator + Copy>(
    catalogue: &'a Catalogue<A>,
    extensions: Option<&'a Extensions<A>>,
    repeated: &'a RepeatedValues<'a>,
    copy: CopyNo,
    view: &'a ItemView,
) -> Reply<'a>
    requires copy { copy < (facts_of catalogue.now).copies }
    requires state { IsKnownState (facts_of catalogue.now) view.now.state }
    requires short { bytes_repeated repeated.now ≤ 1024 }
    ensures reply { IsItemSorted catalogue.now (extensions_lent extensions.entry).patrons repeated.now
        (Ok (ask.Item copy)) view.now result }
    ensures short { IsShort result }
{
    Reply::SorterItem(SorterItemReply {
        item: item_reply(repeated, outcome_of_view(catalogue, copy, view)),
        recipient: recipient_if_any(catalogue, extensions, awaited_by(&view.state)),
    })
}

/// Where a copy is that was taken in, and for whom. No return leaves a copy on loan: it would show as the
/// open shelf.
fn destination<'a, A: Allocator + Copy>(
    catalogue: &'a Catalogue<A>,
    extensions: Option<&'a Extensions<A>>,
    there: &CopyState,
) -> Destination<'a>
    requires { IsKnownState (facts_of catalogue.now) there.now }
    ensures destination { IsDestination catalogue.now (extensions_lent extensions.entry).patrons there.now
        result }
    ensures short { IsDestinationShort result }
{
    match there {
        CopyState::Shelf(_) | CopyState::OnLoan(_) => Destination::OpenShelf,
        CopyState::OnHoldShelf(HoldPlace { place, patron, .. }) => Destination::HoldShelf {
            place: *place,
            recipient: recipient(catalogue, extensions, *patron),
        },
        CopyState::InTransit(transit) => Destination::Transit {
            branch: catalogue.branch_name(transit.to),
            recipient: recipient_if_any(catalogue, extensions, transit.patron),
        },
    }
}

/// For whom a copy is kept, or is on its way.
fn awaited_by(state: &CopyState) -> Option<PatronNo>
    ensures awaited { result ≡ awaited_by state.now }
    ensures known { (k : Facts) → IsKnownState k state.now → IsKnownPatron k result }
{
    match state {
        CopyState::Shelf(_) | CopyState::OnLoan(_) => None,
        CopyState::OnHoldShelf(shelved) => Some(shelved.patron),
        CopyState::InTransit(transit) => transit.patron,
    }
}

/// The patron for whom a copy is, where there is one.
fn recipient_if_any<'a, A: Allocator + Copy>(
    catalogue: &'a Catalogue<A>,
    extensions: Option<&'a Extensions<A>>,
    patron: Option<PatronNo>,
) -> Option<Recipient<'a>>
    requires { IsKnownPatron (facts_of catalogue.now) patron }
    ensures recipient { IsRecipientIfAny catalogue.now (extensions_lent extensions.entry).patrons patron
        result }
    ensures short { IsRecipientShort result }
{
    match patron {
        Some(patron) => Some(recipient(catalogue, extensions, patron)),
        None => None,
    }
}

/// The patron for whom a copy is.
fn recipient<'a, A: Allocator + Copy>(
    catalogue: &'a Catalogue<A>,
    extensions: Option<&'a Extensions<A>>,
    patron: PatronNo,
) -> Recipient<'a>
    requires { patron < (facts_of catalogue.now).patrons }
    ensures recipient { IsRecipient catalogue.now (extensions_lent extensions.entry).patrons patron result }
    ensures short { IsRecipientShort (Some result) }
{
    Recipient {
        patron: catalogue.patron_name(patron),
        name: name_of(extensions, patron),
    }
}
