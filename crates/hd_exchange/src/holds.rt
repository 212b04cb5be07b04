//! Hold messages (15).
ghost use Rattle.std.specs.Prelude.{◌≡◌, ◌<◌, IfOk, IfSome};
ghost use Rattle.hd_message.specs.declared.kind.DeskKind.TheVariants as kind;
ghost use Rattle.hd_rules.specs.Facts.{Facts};
ghost use Rattle.hd_rules.specs.Known.{IsKnown, IsKnownAction, IsKnownCancel, IsKnownKind};
ghost use Rattle.hd_catalogue.specs.Contents.{Contents, facts_of};
ghost use Rattle.hd_exchange.specs.Asks.{kind_of, kind_of_action, kind_of_cancel};
ghost use Rattle.hd_exchange.specs.HoldAsks.{added_kind, changed_kind, hold_action};
ghost use Rattle.hd_exchange.specs.HoldAsks.{hold_addition, hold_cancel, hold_change, hold_named};
ghost use Rattle.hd_exchange.specs.Messages.{AreValuesOf, hold_states};
ghost use Rattle.hd_exchange.specs.Names.{AreKnownNames};

use crate::dates::Dates;
use crate::names::{branch_if_given, copy_if_given, title_of};
use crate::requests::DeskRequest;
use crate::values::Values;
use hd_catalogue::Catalogue;
use hd_message::{DeskKind, HoldRequest, Mode, Wanted};
use hd_rules::{
    Action, Asked, BranchNo, Cancel, Command, CopyNo, Day, HoldKind, PatronNo, Refusal, TitleNo,
};
use std::alloc::Allocator;

/// What a hold message names, looked up.
#[derive(Clone, Copy)]
pub(crate) struct HoldNames {
    patron: PatronNo,
    title: TitleNo,
    copy: Option<CopyNo>,
}

/// What a hold message wishes, with its branch looked up and its date read.
#[derive(Clone, Copy)]
pub(crate) struct Wish {
    wanted: Option<Wanted>,
    pickup: Option<BranchNo>,
    expiry: Option<Day>,
}

/// The values of a hold message.
pub(crate) fn hold_values<'a>(request: &HoldRequest<'a>) -> Values<'a>
    ensures { (k : Contents) → AreValuesOf (hold_states k request.now) result }
{
    Values {
        kind: DeskKind::Hold,
        date: Some(request.date),
        other: request.wishes.and_then(|wishes| wishes.expiry),
        patron: Some(request.patron),
        copy: request.copy,
        title: request.title,
    }
}

impl<'a, A: Allocator + Copy> DeskRequest<A> for HoldRequest<'a> {
    ghost states = { hold_states };

    fn asks(
        &self,
        catalogue: &Catalogue<A>,
        own: BranchNo,
        dates: &Dates,
    ) -> Result<Asked, Refusal> {
        let stamp = dates.transaction.ok_or(Refusal::BadDate)?;
        let expiry = dates.other.ok_or(Refusal::BadDate)?;
        let patron = catalogue.patron(self.patron).ok_or(Refusal::UnknownPatron)?;
        let copy = copy_if_given(catalogue, self.copy).ok_or(Refusal::UnknownItem)?;
        let title = title_of(catalogue, self.title, &copy).ok_or(Refusal::UnknownTitle)?;
        let named = HoldNames {
            patron,
            title,
            copy,
        };
        hold_named(catalogue, own, self, stamp.day(), expiry, &named)
    }
}

/// What a hold message asks whose dates are read and whose patron, copy and title are known, or the refusal
/// by its branch.
fn hold_named<A: Allocator + Copy>(
    catalogue: &Catalogue<A>,
    own: BranchNo,
    request: &HoldRequest<'_>,
    day: Day,
    expiry: Option<Day>,
    named: &HoldNames,
) -> Result<Asked, Refusal>
    requires own { own < (facts_of catalogue.now).branches }
    requires named { AreKnownNames (facts_of catalogue.now) named.now }
    ensures asked { result ≡ hold_named catalogue.now own request.now day expiry named.now }
    ensures kind { IfOk result (λ asked. kind_of asked ≡ kind.Hold) }
    ensures known { IfOk result (IsKnown (facts_of catalogue.now)) }
{
    if request.cancels {
        return Ok(Asked::Cancel(hold_cancel(request.mode, named)));
    }
    let name = request.wishes.and_then(|wishes| wishes.pickup);
    let pickup = branch_if_given(catalogue, name).ok_or(Refusal::UnknownBranch)?;
    let wish = Wish {
        wanted: request.wishes.and_then(|wishes| wishes.wanted),
        pickup,
        expiry,
    };
    Ok(Asked::Command(Command {
        day,
        action: hold_action(request.mode, named, &wish, own),
    }))
}

/// What a hold message that doesn't cancel does; `own` is the branch of its terminal.
fn hold_action(mode: Mode, named: &HoldNames, wish: &Wish, own: BranchNo) -> Action
    ensures action { result ≡ hold_action mode named.now wish.now own }
    ensures kind { kind_of_action result ≡ kind.Hold }
    ensures known { (k : Facts) → AreKnownNames k named.now
        → IfSome wish.now.pickup (λ branch. branch < k.branches)
        → own < k.branches → IsKnownAction k result }
{
    match mode {
        Mode::Add => addition(named, wish, own),
        Mode::Delete => Action::Delete {
            patron: named.patron,
            title: named.title,
        },
        Mode::Change => change(named, wish),
    }
}

/// The adding of a hold: it is picked up at the terminal's own branch where the message names none.
fn addition(named: &HoldNames, wish: &Wish, own: BranchNo) -> Action
    ensures action { result ≡ hold_addition named.now wish.now own }
    ensures kind { kind_of_action result ≡ kind.Hold }
    ensures known { (k : Facts) → AreKnownNames k named.now
        → IfSome wish.now.pickup (λ branch. branch < k.branches)
        → own < k.branches → IsKnownAction k result }
{
    Action::Add {
        patron: named.patron,
        title: named.title,
        kind: added_kind(wish.wanted, named.copy),
        pickup: wish.pickup.unwrap_or(own),
        expiry: wish.expiry,
    }
}

/// Which copies a new hold admits: where BY doesn't say so, the named copy or else any.
fn added_kind(wanted: Option<Wanted>, copy: Option<CopyNo>) -> HoldKind
    ensures kind { result ≡ added_kind wanted copy }
    ensures known { (k : Facts) → IfSome copy (λ copy. copy < k.copies) → IsKnownKind k result }
{
    match (wanted, copy) {
        (Some(Wanted::AtBranch), _) => HoldKind::AtBranch,
        (Some(Wanted::AnyCopy), _) | (_, None) => HoldKind::Any,
        (Some(Wanted::OneCopy) | None, Some(copy)) => HoldKind::One(copy),
    }
}

/// The change of a hold: what the message doesn't say stays.
fn change(named: &HoldNames, wish: &Wish) -> Action
    ensures action { result ≡ hold_change named.now wish.now }
    ensures kind { kind_of_action result ≡ kind.Hold }
    ensures known { (k : Facts) → AreKnownNames k named.now
        → IfSome wish.now.pickup (λ branch. branch < k.branches)
        → IsKnownAction k result }
{
    Action::Change {
        patron: named.patron,
        title: named.title,
        kind: changed_kind(wish.wanted, named.copy),
        pickup: wish.pickup,
        expiry: wish.expiry,
    }
}

/// Which copies a changed hold admits, where BY says so.
fn changed_kind(wanted: Option<Wanted>, copy: Option<CopyNo>) -> Option<HoldKind>
    ensures kind { result ≡ changed_kind wanted copy }
    ensures known { (k : Facts) → IfSome copy (λ copy. copy < k.copies) → IfSome result (IsKnownKind k) }
{
    match (wanted?, copy) {
        (Wanted::AnyCopy, _) => Some(HoldKind::Any),
        (Wanted::AtBranch, _) => Some(HoldKind::AtBranch),
        (Wanted::OneCopy, Some(copy)) => Some(HoldKind::One(copy)),
        (Wanted::OneCopy, None) => None,
    }
}

/// What a cancellation takes back: for a delete the newest add, for an add the newest delete, for a change
/// the newest change.
fn hold_cancel(mode: Mode, named: &HoldNames) -> Cancel
    ensures cancel { result ≡ hold_cancel mode named.now }
    ensures kind { kind_of_cancel result ≡ kind.Hold }
    ensures known { (k : Facts) → AreKnownNames k named.now → IsKnownCancel k result }
{
    match mode {
        Mode::Delete => Cancel::Add(named.patron, named.title),
        Mode::Add => Cancel::Delete(named.patron, named.title),
        Mode::Change => Cancel::Change(named.patron, named.title),
    }
}
