//! The lines of holds.
#![tactic(auto, unfolding(hd_catalogue::specs::Contents::branch_number, hd_catalogue::specs::Contents::title_number, hd_catalogue::specs::Contents::copy_number, hd_catalogue::specs::Contents::patron_number))]

ghost use Rattle.std.specs.Prelude.{◌≡◌, option_map};
ghost use Rattle.hd_opening.specs.Lines.{are_texts, as_hold, hold_names, hold_said, is_kind, kind_of};
ghost use Rattle.hd_opening.specs.Values.{hold_values};

use crate::cause::OpeningCause;
use crate::days::read_expiry;
use crate::names::number_from_one;
use hd_catalogue::{Catalogue, Values, is_name};
use hd_rules::{BranchNo, Hold, HoldKind, OpeningRow, PatronNo, TitleNo};
use std::alloc::Allocator;

/// The values of a hold's line.
#[derive(Clone, Copy)]
pub(crate) struct HoldTexts<'a> {
    pub(crate) title: &'a [u8],
    pub(crate) patron: &'a [u8],
    pub(crate) stamp: &'a [u8],
    pub(crate) admits: &'a [u8],
    pub(crate) copy: &'a [u8],
    pub(crate) pickup: &'a [u8],
    pub(crate) expiry: &'a [u8],
}

/// What the names of a hold's line stand for.
#[derive(Clone, Copy)]
struct HoldNames {
    title: TitleNo,
    patron: PatronNo,
    kind: HoldKind,
    pickup: BranchNo,
}

/// The seven values of a hold's line, where they are just seven.
fn hold_texts(mut values: Values<'_>) -> Option<HoldTexts<'_>>
    ensures { option_map hold_values result ≡ as_hold values.entry }
{
    let title = values.take()?;
    let patron = values.take()?;
    let stamp = values.take()?;
    let admits = values.take()?;
    let copy = values.take()?;
    let pickup = values.take()?;
    let expiry = values.take()?;
    match values.take() {
        Some(_) => None,
        None => Some(HoldTexts {
            title,
            patron,
            stamp,
            admits,
            copy,
            pickup,
            expiry,
        }),
    }
}

/// Whether these values say what a hold admits: the copy is named where the hold admits it alone.
fn is_kind(admits: &[u8], copy: &[u8]) -> bool
    ensures { result ≡ is_kind admits.now copy.now }
{
    if admits == b"copy".as_slice() {
        is_name(copy)
    } else {
        (admits == b"any".as_slice() || admits == b"branch".as_slice()) && copy.is_empty()
    }
}

/// What a hold admits by these values, if the copy is known.
fn kind_of<A: Allocator + Copy>(
    catalogue: &Catalogue<A>,
    admits: &[u8],
    copy: &[u8],
) -> Option<HoldKind>
    ensures { result ≡ kind_of catalogue.now admits.now copy.now }
{
    if admits == b"copy".as_slice() {
        catalogue.copy(copy).map(HoldKind::One)
    } else if admits == b"any".as_slice() {
        Some(HoldKind::Any)
    } else {
        Some(HoldKind::AtBranch)
    }
}

/// What the names of a hold's line stand for, if each is known.
fn hold_names<A: Allocator + Copy>(
    catalogue: &Catalogue<A>,
    texts: HoldTexts<'_>,
) -> Option<HoldNames>
    ensures { option_map (λ n. ((n.title, n.patron), (n.kind, n.pickup))) result
        ≡ hold_names catalogue.now (hold_values texts.entry) }
{
    let title = catalogue.title(texts.title)?;
    let patron = catalogue.patron(texts.patron)?;
    let kind = kind_of(catalogue, texts.admits, texts.copy)?;
    let pickup = catalogue.branch(texts.pickup)?;
    Some(HoldNames {
        title,
        patron,
        kind,
        pickup,
    })
}

/// Whether the texts of a hold's line are names, and say what it admits.
fn are_texts(texts: HoldTexts<'_>) -> bool
    ensures { result ≡ are_texts (hold_values texts.entry) }
{
    is_name(texts.title)
        && is_name(texts.patron)
        && is_kind(texts.admits, texts.copy)
        && is_name(texts.pickup)
}

/// What a hold's line says.
pub(crate) fn read_hold<A: Allocator + Copy>(
    catalogue: &Catalogue<A>,
    short: bool,
    last: u32,
    values: Values<'_>,
) -> Result<OpeningRow, OpeningCause>
    ensures { result ≡ hold_said short catalogue.now last (as_hold values.entry) }
{
    let Some(texts) = hold_texts(values) else {
        return Err(OpeningCause::Fields);
    };
    if !short || !are_texts(texts) {
        return Err(OpeningCause::Text);
    }
    let Some(stamp) = number_from_one(last, texts.stamp) else {
        return Err(OpeningCause::Number);
    };
    let Some(expiry) = read_expiry(texts.expiry) else {
        return Err(OpeningCause::Number);
    };
    let Some(names) = hold_names(catalogue, texts) else {
        return Err(OpeningCause::Unknown);
    };
    Ok(OpeningRow::Hold {
        title: names.title,
        hold: Hold {
            patron: names.patron,
            stamp: u64::from(stamp),
            kind: names.kind,
            pickup: names.pickup,
            expiry,
            copy: None,
        },
    })
}
