//! Checkouts and renewals (docs/desk-rules.md, "Checkout" and "Renew").
#![tactic(auto)]

ghost use Rattle.std.specs.Prelude.{◌≡◌, ◌<◌, ◌≤◌, ◌+◌, ◌∷◌, [], IfOk, IfErr, OnErr, Err, length};
ghost use Rattle.hd_rules.specs.declared.copies.CopyState.TheVariants.{OnLoan as IsOnLoan};
ghost use Rattle.hd_rules.specs.Ask.{Plan};
ghost use Rattle.hd_rules.specs.Settle.{hold_becomes as change_of_hold};
ghost use Rattle.hd_rules.specs.Step.{cannot_renew, checkout_at, due_day, is_wanted, lend, lend_from_shelf};
ghost use Rattle.hd_rules.specs.Step.{lend_held, make_loan, renew_at, renew_loan};
ghost use Rattle.hd_desk.specs.Asking.{ending_of, told_with};
ghost use Rattle.hd_desk.specs.Desks.{facts};

use crate::accepted::{copy_becomes, hold_becomes};
use crate::inquiry::Inquiry;
use hd_footprint::Footprint;
use hd_rules::{Change, CopyNo, CopyState, Day, Hold, Loan, PatronNo, Refusal, Reply};
use std::alloc::Allocator;

/// The message of a checkout or a renewal.
#[derive(Clone, Copy)]
pub(crate) struct Lending {
    /// The number of the command.
    pub(crate) number: u64,
    pub(crate) patron: PatronNo,
    pub(crate) copy: CopyNo,
    /// The day of the message's transaction date.
    pub(crate) day: Day,
}

impl<'a, A: Allocator + Copy> Inquiry<'a, A> {
    /// A checkout of a copy that is there now. Where it is refused the footprint stays empty.
    pub(crate) fn checkout(
        &mut self,
        message: &Lending,
        may_renew: bool,
        old: &CopyState,
        footprint: &mut Footprint,
    ) -> Result<Reply, Refusal>
        requires copy { message.now.copy < (facts self.old.desk).copies }
        requires patron { message.now.patron < (facts self.old.desk).patrons }
        requires few { length self.old.asked ≤ 1 }
        requires empty { footprint.old ≡ [] }
        ensures desk { self.new.desk ≡ self.old.desk }
        ensures ends { (told_with footprint.new result, self.new.asked)
            ≡ ending_of self.old (checkout_at (facts self.old.desk) message.now.number message.now.patron
            message.now.copy may_renew message.now.day old.now) }
        ensures untouched { OnErr result (footprint.new ≡ footprint.old) }
    {
        match old {
            CopyState::Shelf(_) => {
                let home = self.desk.home(message.copy);
                let chosen = self.choice(message.copy, home, message.day);
                self.lend_from_shelf(message, old, &chosen, footprint)
            }
            CopyState::OnLoan(loan) => {
                if loan.patron == message.patron && may_renew {
                    self.renew_loan(message, loan, footprint)
                } else {
                    Err(Refusal::OnLoan)
                }
            }
            CopyState::OnHoldShelf(place) => {
                if place.patron == message.patron {
                    self.lend_held(message, old, footprint)
                } else {
                    Err(Refusal::KeptForAnother)
                }
            }
            CopyState::InTransit(_) => Err(Refusal::InTransit),
        }
    }

    /// Lends a copy from the open shelf, where nobody's hold comes first, or the patron's own, which then
    /// ends. Where it is refused the footprint stays empty.
    fn lend_from_shelf(
        &mut self,
        message: &Lending,
        old: &CopyState,
        chosen: &Option<Hold>,
        footprint: &mut Footprint,
    ) -> Result<Reply, Refusal>
        requires copy { message.now.copy < (facts self.old.desk).copies }
        requires patron { message.now.patron < (facts self.old.desk).patrons }
        requires few { length self.old.asked ≤ 2 }
        requires empty { footprint.old ≡ [] }
        ensures desk { self.new.desk ≡ self.old.desk }
        ensures ends { (told_with footprint.new result, self.new.asked)
            ≡ ending_of self.old (lend_from_shelf (facts self.old.desk) message.now.number message.now.patron
            message.now.copy message.now.day old.now chosen.now) }
        ensures untouched { OnErr result (footprint.new ≡ footprint.old) }
    {
        match chosen {
            None => {
                let due = self.lend(message)?;
                self.lend_until(message, due, old, &[], footprint)
            }
            Some(hold) => {
                if hold.patron == message.patron {
                    self.lend_held(message, old, footprint)
                } else {
                    Err(Refusal::KeptForAnother)
                }
            }
        }
    }

    /// Lends a copy, and with it the patron's hold ends. Where it is refused the footprint stays empty.
    fn lend_held(
        &mut self,
        message: &Lending,
        old: &CopyState,
        footprint: &mut Footprint,
    ) -> Result<Reply, Refusal>
        requires copy { message.now.copy < (facts self.old.desk).copies }
        requires patron { message.now.patron < (facts self.old.desk).patrons }
        requires few { length self.old.asked ≤ 2 }
        requires empty { footprint.old ≡ [] }
        ensures desk { self.new.desk ≡ self.old.desk }
        ensures ends { (told_with footprint.new result, self.new.asked)
            ≡ ending_of self.old (lend_held (facts self.old.desk) message.now.number message.now.patron
            message.now.copy message.now.day old.now) }
        ensures untouched { OnErr result (footprint.new ≡ footprint.old) }
    {
        let due = self.lend(message)?;
        let title = self.desk.title_of(message.copy);
        let held = self.hold(title, message.patron);
        let ends = hold_becomes(title, message.patron, &held, &None);
        self.lend_until(message, due, old, &[ends], footprint)
    }

    /// The due day of a loan, where the patron has room for one more and the day can be.
    fn lend(&mut self, message: &Lending) -> Result<Day, Refusal>
        requires copy { message.now.copy < (facts self.old.desk).copies }
        requires patron { message.now.patron < (facts self.old.desk).patrons }
        requires few { length self.old.asked ≤ 2 }
        ensures desk { self.new.desk ≡ self.old.desk }
        ensures more { length self.new.asked ≡ length self.old.asked + 1 }
        ensures due { IfOk result (λ due. due
            ≡ due_day (facts self.old.desk) message.now.copy message.now.day) }
        ensures lent { IfOk result (λ due. (rest : Plan)
            → ending_of self.old (lend (facts self.old.desk) message.now.patron message.now.copy
            message.now.day rest) ≡ ending_of self.new rest) }
        ensures refused { IfErr result (λ refusal. (rest : Plan)
            → ending_of self.old (lend (facts self.old.desk) message.now.patron message.now.copy
            message.now.day rest) ≡ (Err refusal, self.new.asked)) }
    {
        if !self.room(message.patron) {
            return Err(Refusal::LoanLimit);
        }
        self.desk
            .due_day(message.copy, message.day)
            .ok_or(Refusal::DueRange)
    }

    /// The copy is lent until that day, and these holds end. Where it is refused the footprint stays empty.
    fn lend_until(
        &self,
        message: &Lending,
        due: Day,
        old: &CopyState,
        ends: &[Change],
        footprint: &mut Footprint,
    ) -> Result<Reply, Refusal>
        requires copy { message.now.copy < (facts self.now.desk).copies }
        requires due { due ≡ due_day (facts self.now.desk) message.now.copy message.now.day }
        requires few { length ends.now ≤ 1 }
        requires empty { footprint.old ≡ [] }
        ensures ends { (told_with footprint.new result, self.now.asked)
            ≡ ending_of self.now (make_loan (facts self.now.desk) message.now.number message.now.patron
            message.now.copy message.now.day old.now ends.now) }
        ensures untouched { OnErr result (footprint.new ≡ footprint.old) }
    {
        let loan = CopyState::OnLoan(Loan {
            patron: message.patron,
            due,
            renewals: 0,
        });
        let title = self.desk.title_of(message.copy);
        let reply = Reply::LentOrRenewed {
            title,
            due,
            renewal: false,
        };
        let lent = copy_becomes(message.copy, old, &loan);
        match ends {
            [end] => self.accept(message.number, &[lent, *end], reply, footprint),
            _ => self.accept(message.number, &[lent], reply, footprint),
        }
    }

    /// A renewal of a copy that is there now. Where it is refused the footprint stays empty.
    pub(crate) fn renew(
        &mut self,
        message: &Lending,
        old: &CopyState,
        footprint: &mut Footprint,
    ) -> Result<Reply, Refusal>
        requires copy { message.now.copy < (facts self.old.desk).copies }
        requires few { length self.old.asked ≤ 1 }
        requires empty { footprint.old ≡ [] }
        ensures desk { self.new.desk ≡ self.old.desk }
        ensures ends { (told_with footprint.new result, self.new.asked)
            ≡ ending_of self.old (renew_at (facts self.old.desk) message.now.number message.now.patron
            message.now.copy message.now.day old.now) }
        ensures untouched { OnErr result (footprint.new ≡ footprint.old) }
    {
        match old {
            CopyState::OnLoan(loan) => {
                if loan.patron == message.patron {
                    self.renew_loan(message, loan, footprint)
                } else {
                    Err(Refusal::NotOnLoan)
                }
            }
            _ => Err(Refusal::NotOnLoan),
        }
    }

    /// Renews a loan of the patron. Where it is refused the footprint stays empty.
    fn renew_loan(
        &mut self,
        message: &Lending,
        loan: &Loan,
        footprint: &mut Footprint,
    ) -> Result<Reply, Refusal>
        requires copy { message.now.copy < (facts self.old.desk).copies }
        requires few { length self.old.asked ≤ 1 }
        requires empty { footprint.old ≡ [] }
        ensures desk { self.new.desk ≡ self.old.desk }
        ensures ends { (told_with footprint.new result, self.new.asked)
            ≡ ending_of self.old (renew_loan (facts self.old.desk) message.now.number message.now.patron
            message.now.copy message.now.day loan.now) }
        ensures untouched { OnErr result (footprint.new ≡ footprint.old) }
    {
        let home = self.desk.home(message.copy);
        let chosen = self.choice(message.copy, home, message.day);
        let title = self.desk.title_of(message.copy);
        if self.desk.most_renewals(title) <= loan.renewals || is_wanted(message.patron, &chosen) {
            return Err(Refusal::NotRenewable);
        }
        let Some(due) = self.desk.due_day(message.copy, message.day) else {
            return Err(Refusal::DueRange);
        };
        let renewed = CopyState::OnLoan(Loan {
            patron: message.patron,
            due,
            renewals: loan.renewals + 1,
        });
        let reply = Reply::LentOrRenewed {
            title,
            due,
            renewal: true,
        };
        let old = CopyState::OnLoan(*loan);
        self.accept(
            message.number,
            &[copy_becomes(message.copy, &old, &renewed)],
            reply,
            footprint,
        )
    }
}

/// Whether the hold that comes first is another patron's.
fn is_wanted(patron: PatronNo, chosen: &Option<Hold>) -> bool
    ensures { result ≡ is_wanted patron chosen.now }
{
    match chosen {
        Some(hold) => hold.patron != patron,
        None => false,
    }
}
