//! Returns (docs/desk-rules.md, "Checkin").
#![tactic(auto)]

ghost use Rattle.std.specs.Prelude.{◌≡◌, ◌<◌, ◌≤◌, [], OnErr, length};
ghost use Rattle.hd_rules.specs.Step.{checkin};
ghost use Rattle.hd_desk.specs.Asking.{ending_of, told_with};
ghost use Rattle.hd_desk.specs.Desks.{facts};

use crate::accepted::copy_becomes;
use crate::inquiry::Inquiry;
use hd_allocate::settle_copy;
use hd_footprint::Footprint;
use hd_rules::{BranchNo, CopyNo, Day, Refusal, Reply};
use std::alloc::Allocator;

impl<'a, A: Allocator + Copy> Inquiry<'a, A> {
    /// A return of the copy at the branch: a loan of it ends, and the copy is settled there. Where it is
    /// refused the footprint stays empty.
    pub(crate) fn checkin(
        &mut self,
        number: u64,
        copy: CopyNo,
        branch: BranchNo,
        day: Day,
        footprint: &mut Footprint,
    ) -> Result<Reply, Refusal>
        requires copy { copy < (facts self.old.desk).copies }
        requires branch { branch < (facts self.old.desk).branches }
        requires few { length self.old.asked ≤ 0 }
        requires empty { footprint.old ≡ [] }
        ensures desk { self.new.desk ≡ self.old.desk }
        ensures ends { (told_with footprint.new result, self.new.asked)
            ≡ ending_of self.old (checkin (facts self.old.desk) number copy branch day) }
        ensures untouched { OnErr result (footprint.new ≡ footprint.old) }
    {
        let old = self.copy(copy);
        let settled = settle_copy(self, copy, branch, day, &old);
        let reply = Reply::Returned {
            title: self.desk.title_of(copy),
            home: self.desk.home(copy),
            now: settled.state,
        };
        let moved = copy_becomes(copy, &old, &settled.state);
        match self.change_of(copy, &settled.gets) {
            Some(gets) => self.accept(number, &[moved, gets], reply, footprint),
            None => self.accept(number, &[moved], reply, footprint),
        }
    }
}
