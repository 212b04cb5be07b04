//! Loans that a terminal made while it was off line (docs/desk-rules.md, "Off-line checkout").
#![tactic(auto)]

ghost use Rattle.std.specs.Prelude.{◌≡◌, ◌<◌, ◌≤◌, ◌∷◌, ◌++◌, [], ℕ, OnErr, length};
ghost use Rattle.hd_rules.specs.Facts.{Facts};
ghost use Rattle.hd_rules.specs.Choose.{admits};
ghost use Rattle.hd_rules.specs.Step.{end_of_hold, ends_with, release_of_hold, lend_off_line, off_line};
ghost use Rattle.hd_desk.specs.Asking.{ending_of, as_list, told_with};
ghost use Rattle.hd_desk.specs.Desks.{facts};

use crate::accepted::{copy_becomes, hold_becomes};
use crate::inquiry::Inquiry;
use hd_allocate::{tied_to, with_copy};
use hd_footprint::Footprint;
use hd_rules::{
    Change, CopyNo, CopyState, Day, Hold, HoldKind, Loan, PatronNo, Refusal, Reply, TitleNo,
};
use std::alloc::Allocator;

impl<'a, A: Allocator + Copy> Inquiry<'a, A> {
    /// A loan of the copy to the patron that took place already. Where it is refused the footprint stays
    /// empty.
    pub(crate) fn off_line(
        &mut self,
        number: u64,
        patron: PatronNo,
        copy: CopyNo,
        due: Day,
        footprint: &mut Footprint,
    ) -> Result<Reply, Refusal>
        requires copy { copy < (facts self.old.desk).copies }
        requires few { length self.old.asked ≤ 1 }
        requires empty { footprint.old ≡ [] }
        ensures desk { self.new.desk ≡ self.old.desk }
        ensures ends { (told_with footprint.new result, self.new.asked)
            ≡ ending_of self.old (off_line (facts self.old.desk) number patron copy due) }
        ensures untouched { OnErr result (footprint.new ≡ footprint.old) }
    {
        let old = self.copy(copy);
        let title = self.desk.title_of(copy);
        let held = self.hold(title, patron);
        let ended = self.end_of_hold(copy, title, patron, &held);
        match tied_to(&old) {
            Some(other) if other != patron => {
                let kept = self.hold(title, other);
                let freed = release_of_hold(title, other, &kept);
                self.lend_off_line(number, patron, copy, due, &old, &ended, &freed, footprint)
            }
            _ => self.lend_off_line(number, patron, copy, due, &old, &ended, &None, footprint),
        }
    }

    /// The patron's hold that the loan ends: it has the copy, or may have it and has none.
    fn end_of_hold(
        &self,
        copy: CopyNo,
        title: TitleNo,
        patron: PatronNo,
        held: &Option<Hold>,
    ) -> Option<Change>
        requires copy { copy < (facts self.now.desk).copies }
        requires title { title ≡ (facts self.now.desk).title_of copy }
        ensures { as_list result ≡ end_of_hold (facts self.now.desk) copy patron held.now }
    {
        match held {
            Some(hold) if self.ends_with(copy, hold) => {
                Some(hold_becomes(title, patron, held, &None))
            }
            _ => None,
        }
    }

    /// Whether a loan of the copy to its patron ends the hold.
    fn ends_with(&self, copy: CopyNo, hold: &Hold) -> bool
        requires { copy < (facts self.now.desk).copies }
        ensures { result ≡ ends_with (facts self.now.desk) copy hold.now hold.now.copy }
    {
        match hold.copy {
            Some(kept) => kept == copy,
            None => match hold.kind {
                HoldKind::Any => true,
                HoldKind::One(named) => named == copy,
                HoldKind::AtBranch => self.desk.home(copy) == hold.pickup,
            },
        }
    }

    /// The copy is on loan until the day that the message says. Where it is refused the footprint stays
    /// empty.
    fn lend_off_line(
        &self,
        number: u64,
        patron: PatronNo,
        copy: CopyNo,
        due: Day,
        old: &CopyState,
        ended: &Option<Change>,
        freed: &Option<Change>,
        footprint: &mut Footprint,
    ) -> Result<Reply, Refusal>
        requires copy { copy < (facts self.now.desk).copies }
        requires empty { footprint.old ≡ [] }
        ensures ends { (told_with footprint.new result, self.now.asked)
            ≡ ending_of self.now (lend_off_line (facts self.now.desk) number patron copy due old.now
            (as_list ended.now ++ as_list freed.now)) }
        ensures untouched { OnErr result (footprint.new ≡ footprint.old) }
    {
        let loan = CopyState::OnLoan(Loan {
            patron,
            due,
            renewals: 0,
        });
        let reply = Reply::LentOrRenewed {
            title: self.desk.title_of(copy),
            due,
            renewal: false,
        };
        let lent = copy_becomes(copy, old, &loan);
        match (ended, freed) {
            (None, None) => self.accept(number, &[lent], reply, footprint),
            (Some(end), None) => self.accept(number, &[lent, *end], reply, footprint),
            (None, Some(free)) => self.accept(number, &[lent, *free], reply, footprint),
            (Some(end), Some(free)) => self.accept(number, &[lent, *end, *free], reply, footprint),
        }
    }
}

/// The hold that the loan takes the copy from, which keeps its place in the queue.
fn release_of_hold(title: TitleNo, patron: PatronNo, held: &Option<Hold>) -> Option<Change>
    ensures { (k : Facts) (copy : ℕ) → k.title_of copy ≡ title
        → as_list result ≡ release_of_hold k copy patron held.now }
{
    let hold = held.as_ref()?;
    Some(hold_becomes(title, patron, held, &Some(with_copy(None, hold))))
}
