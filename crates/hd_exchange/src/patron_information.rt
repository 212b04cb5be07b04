//! The replies that report what a patron has (64).
ghost use Rattle.std.specs.Prelude.{◌≡◌, ◌≤◌, All, length};
ghost use Rattle.hd_catalogue.specs.Contents.{facts_of};
ghost use Rattle.hd_message.specs.Lengths.{IsName, IsPrintedDate};
ghost use Rattle.hd_exchange.specs.PatronInformation.{AreNamesOf, IsInformationReply, IsItemOf, item_name};

use crate::patron_message::PatronValues;
use crate::patron_reader::MOST_ITEMS;
use arrayvec::ArrayVec;
use hd_catalogue::Catalogue;
use hd_message::{PatronInformationOutcome, PatronInformationReply};
use hd_rules::ListItem;
use std::alloc::Allocator;

/// The reply, in this language, to a message with these values and this outcome.
pub(crate) fn information_reply<'a, A: Allocator + Copy>(
    catalogue: &'a Catalogue<A>,
    values: &'a PatronValues<'a>,
    language: &'a [u8],
    outcome: PatronInformationOutcome<'a>,
) -> PatronInformationReply<'a>
    ensures reply { IsInformationReply catalogue.now values.now language.now result }
    ensures outcome { result.outcome ≡ outcome.entry }

    // It prints a date and the institution's name.
    ensures short { IsPrintedDate result.date.now × IsName result.institution.now }
{
    PatronInformationReply {
        language,
        date: &values.date,
        institution: catalogue.institution(),
        patron: values.patron,
        outcome,
    }
}

/// The names of some items, in their order.
pub(crate) fn names_of<'a, A: Allocator + Copy>(
    catalogue: &'a Catalogue<A>,
    items: &[ListItem],
) -> ArrayVec<&'a [u8], MOST_ITEMS>
    requires known { All (IsItemOf (facts_of catalogue.now)) items.now }
    requires few { length items.now ≤ 512 }
    ensures { AreNamesOf catalogue.now items.now result.items }
{
    let mut names = ArrayVec::new();
    for item in items {
        names.push(item_name(catalogue, item));
    }
    names
}

/// The name of an item.
fn item_name<'a, A: Allocator + Copy>(catalogue: &'a Catalogue<A>, item: &ListItem) -> &'a [u8]
    requires { IsItemOf (facts_of catalogue.now) item.now }
    ensures { Some result.now ≡ item_name catalogue.now item.now }
{
    match item {
        ListItem::Copy(copy) => catalogue.copy_name(*copy),
        ListItem::Title(title) => catalogue.title_name(*title),
    }
}
