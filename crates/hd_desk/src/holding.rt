//! Holds added, deleted and changed (docs/desk-rules.md, "Hold add", "Hold delete" and "Hold change").
#![tactic(auto)]

ghost use Rattle.std.specs.Prelude.{◌≡◌, ◌<◌, ◌≤◌, ◌++◌, [], ℕ, Option, Some, None, List, OnErr, length};
ghost use Rattle.hd_rules.specs.declared.cells.Change.{Change};
ghost use Rattle.hd_rules.specs.declared.replies.Reply.TheVariants.{Held};
ghost use Rattle.hd_rules.specs.Ask.{Plan};
ghost use Rattle.hd_rules.specs.Known.{IsKnownHeld, IsKnownState};
ghost use Rattle.hd_rules.specs.Step.{add, change, change_to, changed_hold as as_changed, delete};
ghost use Rattle.hd_rules.specs.Step.{delete_with};
ghost use Rattle.hd_rules.specs.Step.{release};
ghost use Rattle.hd_desk.specs.Asking.{ending_of, as_list, told_with};
ghost use Rattle.hd_desk.specs.Desks.{facts};

use crate::accepted::{copy_becomes, hold_becomes};
use crate::inquiry::Inquiry;
use hd_allocate::{allot_copy, has_expired};
use hd_footprint::Footprint;
use hd_rules::{
    BranchNo, Change, CopyNo, CopyState, Day, Hold, HoldKind, PatronNo, Refusal, Reply, TitleNo,
    Transit,
};
use std::alloc::Allocator;

/// What a message changes of a hold. What is `None` stays.
#[derive(Clone, Copy)]
pub(crate) struct Wishes {
    pub(crate) kind: Option<HoldKind>,
    pub(crate) pickup: Option<BranchNo>,
    pub(crate) expiry: Option<Day>,
}

/// What was kept for a hold that ends: the change of its copy, and of the hold that gets the copy.
#[derive(Clone, Copy)]
struct Released {
    copy: Option<Change>,
    gets: Option<Change>,
}

impl<'a, A: Allocator + Copy> Inquiry<'a, A> {
    /// Adds a hold to a title, where the patron has this one now. Its stamp is the command's number. Where it
    /// is refused the footprint stays empty.
    pub(crate) fn add(
        &mut self,
        title: TitleNo,
        hold: &Hold,
        day: Day,
        held: &Option<Hold>,
        footprint: &mut Footprint,
    ) -> Result<Reply, Refusal>
        requires title { title < (facts self.old.desk).titles }
        requires few { length self.old.asked ≤ 1 }
        requires empty { footprint.old ≡ [] }
        ensures desk { self.new.desk ≡ self.old.desk }
        ensures ends { (told_with footprint.new result, self.new.asked)
            ≡ ending_of self.old (add (facts self.old.desk) hold.now.stamp hold.now title day held.now) }
        ensures untouched { OnErr result (footprint.new ≡ footprint.old) }
    {
        if held.is_some() {
            return Err(Refusal::HoldExists);
        }
        if has_expired(hold.expiry, day) {
            return Err(Refusal::ExpiryPassed);
        }
        let position = self.position(title, hold.stamp);
        let available = self.on_shelf(title, &hold.kind, hold.pickup);
        let reply = hold_reply(title, available, position, hold);
        let added = hold_becomes(title, hold.patron, &None, &Some(*hold));
        self.accept(hold.stamp, &[added], reply, footprint)
    }

    /// Deletes the hold that the patron has now. Where it is refused the footprint stays empty.
    pub(crate) fn delete(
        &mut self,
        number: u64,
        title: TitleNo,
        patron: PatronNo,
        day: Day,
        held: &Option<Hold>,
        footprint: &mut Footprint,
    ) -> Result<Reply, Refusal>
        requires known { IsKnownHeld (facts self.old.desk) held.now }
        requires few { length self.old.asked ≤ 1 }
        requires empty { footprint.old ≡ [] }
        ensures desk { self.new.desk ≡ self.old.desk }
        ensures ends { (told_with footprint.new result, self.new.asked)
            ≡ ending_of self.old (delete (facts self.old.desk) number title patron day held.now) }
        ensures untouched { OnErr result (footprint.new ≡ footprint.old) }
    {
        let Some(hold) = held else {
            return Err(Refusal::NoSuchHold);
        };
        let released = match hold.copy {
            Some(copy) => {
                let old = self.copy(copy);
                self.release(copy, day, &old)
            }
            None => Released {
                copy: None,
                gets: None,
            },
        };
        let ends = hold_becomes(title, patron, held, &None);
        let reply = Reply::Deleted { title };
        match (released.copy, released.gets) {
            (Some(freed), Some(gets)) => self.accept(
                number,
                &[ends, freed, gets],
                reply,
                footprint,
            ),
            (Some(freed), None) => self.accept(number, &[ends, freed], reply, footprint),
            _ => self.accept(number, &[ends], reply, footprint),
        }
    }

    /// Frees the copy that was kept for a hold, or was on the way to its pickup.
    fn release(&mut self, copy: CopyNo, day: Day, old: &CopyState) -> Released
        requires copy { copy < (facts self.old.desk).copies }
        requires known { IsKnownState (facts self.old.desk) old.now }
        requires few { length self.old.asked ≤ 2 }
        ensures desk { self.new.desk ≡ self.old.desk }
        ensures released { (rest : List Change → Plan)
            → ending_of self.old (release (facts self.old.desk) copy day old.now rest)
            ≡ ending_of self.new (rest (as_list result.copy ++ as_list result.gets)) }
        ensures both { result.copy ≡ None → result.gets ≡ None }
    {
        match old {
            CopyState::OnHoldShelf(place) => {
                let chosen = self.choice(copy, place.branch, day);
                let settled = allot_copy(self, copy, place.branch, Some(place.place), &chosen);
                Released {
                    copy: Some(copy_becomes(copy, old, &settled.state)),
                    gets: self.change_of(copy, &settled.gets),
                }
            }
            CopyState::InTransit(transit) => {
                let untied = CopyState::InTransit(Transit {
                    from: transit.from,
                    to: transit.to,
                    patron: None,
                });
                Released {
                    copy: Some(copy_becomes(copy, old, &untied)),
                    gets: None,
                }
            }
            CopyState::Shelf(_) => Released {
                copy: None,
                gets: None,
            },
            CopyState::OnLoan(_) => Released {
                copy: None,
                gets: None,
            },
        }
    }

    /// Changes the hold that the patron has now. Where it is refused the footprint stays empty.
    pub(crate) fn change(
        &mut self,
        number: u64,
        title: TitleNo,
        patron: PatronNo,
        wishes: &Wishes,
        day: Day,
        held: &Option<Hold>,
        footprint: &mut Footprint,
    ) -> Result<Reply, Refusal>
        requires title { title < (facts self.old.desk).titles }
        requires few { length self.old.asked ≤ 1 }
        requires empty { footprint.old ≡ [] }
        ensures desk { self.new.desk ≡ self.old.desk }
        ensures ends { (told_with footprint.new result, self.new.asked)
            ≡ ending_of self.old (change (facts self.old.desk) number title patron wishes.now.kind
            wishes.now.pickup wishes.now.expiry day held.now) }
        ensures untouched { OnErr result (footprint.new ≡ footprint.old) }
    {
        let Some(hold) = held else {
            return Err(Refusal::NoSuchHold);
        };
        if hold.copy.is_some() {
            return Err(Refusal::HoldHasCopy);
        }
        if has_expired(wishes.expiry, day) {
            return Err(Refusal::ExpiryPassed);
        }
        let new = with_wishes(wishes, hold);
        let position = self.position(title, hold.stamp);
        let available = self.on_shelf(title, &new.kind, new.pickup);
        let reply = hold_reply(title, available, position, &new);
        let becomes = hold_becomes(title, patron, held, &Some(new));
        self.accept(number, &[becomes], reply, footprint)
    }
}

/// The reply that reports a hold.
fn hold_reply(title: TitleNo, available: bool, position: u64, hold: &Hold) -> Reply
    ensures { result ≡ Held title available position hold.now }
{
    Reply::Held {
        title,
        available,
        position,
        hold: *hold,
    }
}

/// The hold with what the message gives.
fn with_wishes(wishes: &Wishes, hold: &Hold) -> Hold
    ensures { result ≡ as_changed wishes.now.kind wishes.now.pickup wishes.now.expiry hold.now }
{
    Hold {
        kind: wishes.kind.unwrap_or(hold.kind),
        pickup: wishes.pickup.unwrap_or(hold.pickup),
        expiry: wishes.expiry.or(hold.expiry),
        ..*hold
    }
}
