//! The desk's answers.
#![tactic(auto, unfolding(crate::specs::Desks::desk_of))]

ghost use Rattle.std.specs.Prelude.{◌≡◌, ◌<◌};
ghost use Rattle.std.specs.List.{AllByRecursion};
ghost use Rattle.hd_rules.specs.Notes.{told_answer};
ghost use Rattle.hd_desk.specs.Asking.{AreQueuesOf, IsQueueOf, queues_of};
ghost use Rattle.hd_rules.specs.Find.{choice, place};
ghost use Rattle.hd_rules.specs.Choose.{loans, on_shelf, position};
ghost use Rattle.hd_rules.specs.Known.{IsKnownHeld, IsKnownQuestion};
ghost use Rattle.hd_rules.specs.Views.{loans_of};
ghost use Rattle.hd_holds.specs.declared.held_title.HeldTitle.{HeldTitle};
ghost use Rattle.hd_holds.specs.HeldTitles.{AreHeldBy};
ghost use Rattle.hd_desk.specs.Desks.{desk_of, facts};

use crate::desk::Desk;
use hd_allocate::{CopyFacts, choice};
use hd_copies::LentCopies;
use hd_holds::HeldTitle;
use hd_queue::QueueView;
use hd_rules::{
    Answer, BranchNo, Cell, CopyNo, Day, Hold, HoldKind, PatronNo, Question, TitleNo, Value,
};
use std::alloc::Allocator;

impl<A: Allocator + Copy> Desk<A> {
    /// The answer to a question about what the desk's catalogue names. It takes no memory.
    pub fn answer(&self, question: &Question) -> Answer
        requires { IsKnownQuestion (facts self.now) question.now }
        ensures { result ≡ told_answer (facts self.now) (desk_of self.now) question.now }
    {
        match question {
            Question::Value(Cell::Copy(copy)) => Answer::Value(Value::Copy(self.copy(*copy))),
            Question::Value(Cell::Hold(title, patron)) => {
                Answer::Value(Value::Hold(self.hold(*title, *patron)))
            }
            Question::Choice(copy, branch, day) => {
                Answer::Choice(self.choice(*copy, *branch, *day))
            }
            Question::Place(branch) => Answer::Place(self.place(*branch)),
            Question::Room(patron) => {
                Answer::Room(self.loans(*patron) < self.most_loans(*patron))
            }
            Question::Position(title, stamp) => Answer::Position(self.position(*title, *stamp)),
            Question::OnShelf(title, kind, pickup) => {
                Answer::OnShelf(0 < self.on_shelf(*title, kind, *pickup))
            }
        }
    }

    /// How many titles there are, each with its queue.
    pub fn titles(&self) -> usize
        ensures count { result ≡ (facts self.now).titles }
        ensures queues { AreQueuesOf (facts self.now) (desk_of self.now) (queues_of self.now) }
    {
        self.holds.titles()
    }

    /// The title's queue.
    pub fn queue(&self, title: TitleNo) -> QueueView<'_, A>
        requires { title < (facts self.now).titles }
        ensures queue { IsQueueOf (facts self.now) (desk_of self.now) title result }
        ensures value { result ≡ queues_of self.now title }
    {
        self.holds.view(title)
    }

    /// The copies that the patron has on loan, by rising number (docs/desk-rules.md, "What a patron has"). It
    /// reads these alone, and takes no memory.
    pub fn lent_to(&self, patron: PatronNo) -> LentCopies<'_, A>
        ensures { result ≡ loans_of (facts self.now) (desk_of self.now) patron }
    {
        self.copies.lent_to(patron)
    }

    /// The titles that the patron holds, by their holds' rising stamps, and of equal stamps by title number.
    /// It takes no memory.
    pub fn held_by(&self, patron: PatronNo) -> &[HeldTitle]
        ensures titles { AreHeldBy (desk_of self.now).hold patron result.now }
        ensures known { AllByRecursion (λ (held : HeldTitle). held.title < (facts self.now).titles)
            result.now }
    {
        self.holds.of_patron(patron)
    }

    /// The hold that comes first for the copy, at the branch on the day (docs/desk-rules.md, "Choice").
    pub(crate) fn choice(&self, copy: CopyNo, branch: BranchNo, day: Day) -> Option<Hold>
        requires { copy < (facts self.now).copies }
        ensures choice { result ≡ choice (facts self.now) (desk_of self.now) copy branch day }
        ensures known { IsKnownHeld (facts self.now) result }
    {
        let title = self.title_of(copy);
        let queue = self.holds.view(title);
        let copy = CopyFacts {
            copy,
            home: self.home(copy),
            priority: self.has_priority(title),
            state: self.copy(copy),
        };
        choice(&queue, &copy, branch, day).copied()
    }

    /// The least free place of the branch's hold shelf (docs/desk-rules.md, "Place").
    pub(crate) fn place(&self, branch: BranchNo) -> u32
        requires { branch < (facts self.now).branches }
        ensures { result ≡ place (facts self.now) (desk_of self.now) branch }
    {
        self.copies.least_free(branch)
    }

    /// How many copies the patron has on loan.
    pub(crate) fn loans(&self, patron: PatronNo) -> u32
        ensures { result ≡ loans (facts self.now) (desk_of self.now) patron }
    {
        self.copies.loans_of(patron)
    }

    /// The position that a hold with this stamp has in the title's queue, from 1.
    pub(crate) fn position(&self, title: TitleNo, stamp: u64) -> u64
        requires { title < (facts self.now).titles }
        ensures { result ≡ position (facts self.now) (desk_of self.now) title stamp }
    {
        self.holds.position(title, stamp)
    }

    /// How many copies of the title that such a hold admits are on open shelves.
    pub(crate) fn on_shelf(&self, title: TitleNo, kind: &HoldKind, pickup: BranchNo) -> u32
        requires { title < (facts self.now).titles }
        ensures { result ≡ on_shelf (facts self.now) (desk_of self.now) title kind.now pickup }
    {
        self.copies.on_shelf(title, kind, pickup)
    }
}
