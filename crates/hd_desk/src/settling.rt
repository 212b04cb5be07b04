//! The desk as it is asked where a copy goes (docs/desk-rules.md, "Settle"). The rule is that of
//! `hd_allocate`; each question that it asks is noted.
#![tactic(auto)]

ghost use Rattle.std.specs.Prelude.{◌≡◌, ◌<◌};
ghost use Rattle.hd_allocate.specs.Settling.{hold_changes};
ghost use Rattle.hd_desk.specs.Asking.{as_list};
ghost use Rattle.hd_desk.specs.Desks.{facts};

use crate::accepted::hold_becomes;
use crate::inquiry::Inquiry;
use hd_allocate::{Allotment, Informant};
use hd_rules::{BranchNo, Change, CopyNo, Day, Hold, PatronNo};
use std::alloc::Allocator;

impl<'a, A: Allocator + Copy> Informant for Inquiry<'a, A> {
    ghost use Rattle.std.specs.Prelude.{◌≡◌, ◌<◌, ◌-◌, length};
    ghost use Rattle.hd_desk.specs.Asking.{ending};
    ghost use Rattle.hd_desk.specs.DeskValue.{DeskValue};
    ghost use Rattle.hd_desk.specs.Desks.{desk_of, facts};

    ghost Source = { DeskValue };

    ghost source = { λ q. q.desk };

    ghost is_at = { λ desk k d. (k ≡ facts desk) × (d ≡ desk_of desk) };

    ghost knows_copy = { λ desk c. c < (facts desk).copies };

    ghost knows_branch = { λ desk b. b < (facts desk).branches };

    ghost ending = { λ q k d plan. ending k d plan q.asked };

    /// At most four questions are noted.
    ghost spare = { λ q. 4 - length q.asked };

    fn home_of(&self, copy: CopyNo) -> BranchNo {
        self.desk.home(copy)
    }

    fn hold_of(&mut self, copy: CopyNo, patron: PatronNo) -> Option<Hold> {
        let title = self.desk.title_of(copy);
        self.hold(title, patron)
    }

    fn choice_of(&mut self, copy: CopyNo, branch: BranchNo, day: Day) -> Option<Hold> {
        self.choice(copy, branch, day)
    }

    fn place_at(&mut self, branch: BranchNo) -> u32 {
        self.place(branch)
    }
}

impl<'a, A: Allocator + Copy> Inquiry<'a, A> {
    /// The change of the hold that gets the copy, if one does.
    pub(crate) fn change_of(&self, copy: CopyNo, gets: &Option<Allotment>) -> Option<Change>
        requires { copy < (facts self.now.desk).copies }
        ensures { as_list result ≡ hold_changes (facts self.now.desk) copy gets.now }
    {
        let gets = gets.as_ref()?;
        let title = self.desk.title_of(copy);
        Some(hold_becomes(title, gets.new.patron, &gets.old, &Some(gets.new)))
    }
}
