//! What the catalogue says, in the desk's words.
#![tactic(auto)]

ghost use Rattle.std.specs.Prelude.{◌≡◌, ◌<◌, ◌+◌, nat_lt, true, false, MatchOption};
ghost use Rattle.hd_rules.specs.Facts.{last_number};
ghost use Rattle.hd_rules.specs.Step.{due_day, last_day};
ghost use Rattle.hd_desk.specs.Desks.{facts, IsDue};

use crate::desk::Desk;
use hd_rules::{BranchNo, CopyNo, Day, PatronNo, TitleNo};
use std::alloc::Allocator;

impl<A: Allocator + Copy> Desk<A> {
    /// The copy's title.
    pub(crate) fn title_of(&self, copy: CopyNo) -> TitleNo
        requires { copy < (facts self.now).copies }
        ensures title { result ≡ (facts self.now).title_of copy }
        ensures known { result < (facts self.now).titles }
    {
        self.catalogue().title_of(copy)
    }

    /// The copy's home.
    pub(crate) fn home(&self, copy: CopyNo) -> BranchNo
        requires { copy < (facts self.now).copies }
        ensures home { result ≡ (facts self.now).home copy }
        ensures known { result < (facts self.now).branches }
    {
        self.catalogue().home(copy)
    }

    /// Whether the title has local priority.
    pub(crate) fn has_priority(&self, title: TitleNo) -> bool
        requires { title < (facts self.now).titles }
        ensures { result ≡ (facts self.now).priority title }
    {
        self.catalogue().priority(title)
    }

    /// The most renewals of a loan of the title.
    pub(crate) fn most_renewals(&self, title: TitleNo) -> u32
        requires { title < (facts self.now).titles }
        ensures renewals { result ≡ (facts self.now).renewals title }
    {
        self.catalogue().renewals(title)
    }

    /// The most loans of the patron.
    pub(crate) fn most_loans(&self, patron: PatronNo) -> u32
        requires { patron < (facts self.now).patrons }
        ensures { result ≡ (facts self.now).loan_limit patron }
    {
        self.catalogue().loan_limit(patron)
    }

    /// The last number that a command can have.
    pub(crate) fn last_number(&self) -> u64
        ensures { result ≡ last_number (facts self.now) }
    {
        let catalogue = self.catalogue();
        u64::from(catalogue.last_before()) + catalogue.command_limit()
    }

    /// The day on which a loan of the copy from this day is due, or `None` where that is after 9999-12-31.
    pub(crate) fn due_day(&self, copy: CopyNo, day: Day) -> Option<Day>
        requires { copy < (facts self.now).copies }
        ensures { IsDue (facts self.now) copy day result }
    {
        let title = self.title_of(copy);
        day.add_days(self.catalogue().loan_days(title))
    }
}
