//! A desk that a command asks.
#![tactic(auto)]

ghost use Rattle.std.specs.Prelude.{◌≡◌, ◌<◌, ◌+◌, nat_lt, [], ◌∷◌, ◌++◌, length};
ghost use Rattle.hd_rules.specs.declared.questions.Question.TheVariants.{Value as ValueOf, Choice, Place};
ghost use Rattle.hd_rules.specs.declared.questions.Question.TheVariants.{Room, Position, OnShelf};
ghost use Rattle.hd_rules.specs.declared.cells.Cell.TheVariants.{Copy as CopyCell, Hold as HoldCell};
ghost use Rattle.hd_rules.specs.declared.cells.Value.TheVariants.{Copy as CopyHas, Hold as HoldHas};
ghost use Rattle.hd_rules.specs.declared.questions.Noted.TheVariants as noted;
ghost use Rattle.hd_rules.specs.Ask.{answer};
ghost use Rattle.hd_rules.specs.Find.{choice, place};
ghost use Rattle.hd_rules.specs.Choose.{loans, on_shelf, position};
ghost use Rattle.hd_rules.specs.Known.{IsKnownHeld, IsKnownState};
ghost use Rattle.hd_rules.specs.Record.{findings};
ghost use Rattle.hd_rules.specs.Notes.{note};
ghost use Rattle.hd_rules.specs.Known.{IsKnownQuestion};
ghost use Rattle.hd_desk.specs.Asking.{AreKnownQuestions};
ghost use Rattle.hd_desk.specs.Desks.{IsKeptDesk, desk_of, facts};

use crate::desk::Desk;
use hd_footprint::Findings;
use hd_rules::{
    BranchNo, Cell, CopyNo, CopyState, Day, Finding, Hold, HoldKind, Noted, PatronNo, Question,
    TitleNo, Value,
};
use std::alloc::{Allocator, Global};
use std::marker::Model;

/// A desk, and what a command has asked it: each question with its noted answer, in order. It changes nothing
/// and takes no memory.
#[derive(Drop)]
pub(crate) struct Inquiry<'a, A: Allocator = Global> {
    pub(crate) desk: &'a Desk<A>,
    findings: Findings,
}

impl<'a, A: Allocator> Model for Inquiry<'a, A> {
    ghost use Rattle.std.specs.Prelude.{◌≡◌, map};
    ghost use Rattle.hd_rules.specs.Record.{findings as found};
    ghost use Rattle.hd_rules.specs.declared.questions.Finding.{Finding};
    ghost use Rattle.hd_desk.specs.Asking.{InquiryValue, asked_of, AreKnownQuestions};
    ghost use Rattle.hd_desk.specs.Desks.{facts, desk_of};

    ghost Value = { InquiryValue };

    ghost view = { λ q. record { desk = q.desk.now; asked = asked_of q.findings } };

    ghost invariant = { λ q. (q.findings
        ≡ found (facts q.desk.now) (desk_of q.desk.now) (asked_of q.findings))
        × AreKnownQuestions (facts q.desk.now) (asked_of q.findings) };
}

impl<'a, A: Allocator + Copy> Inquiry<'a, A> {
    /// Nothing is asked yet. The allocator is never asked for memory.
    pub(crate) fn new(alloc: Global, desk: &'a Desk<A>) -> Inquiry<'a, A>
        ensures start { result ≡ record { desk = desk.now; asked = [] } }
        ensures kept { IsKeptDesk (facts desk.now) (desk_of desk.now) }
    {
        let _ = &desk.copies;
        Inquiry {
            desk,
            findings: Findings::new(alloc),
        }
    }

    /// The questions with their noted answers.
    pub(crate) fn into_findings(self) -> Findings
        ensures findings { result ≡ findings (facts self.entry.desk) (desk_of self.entry.desk)
            self.entry.asked }
        ensures known { AreKnownQuestions (facts self.entry.desk) self.entry.asked }
    {
        self.findings
    }

    /// Keeps a question with its noted answer.
    fn keep(&mut self, question: Question, noted: Noted)
        requires few { length self.old.asked < 4 }
        requires known { IsKnownQuestion (facts self.old.desk) question }
        requires noted { noted ≡ note (facts self.old.desk) (desk_of self.old.desk) question }
        ensures desk { self.new.desk ≡ self.old.desk }
        ensures asked { self.new.asked ≡ self.old.asked ++ question ∷ [] }
        ensures more { length self.new.asked ≡ length self.old.asked + 1 }
    {
        self.findings.push(Finding { question, noted });
    }

    /// Where is the copy?
    pub(crate) fn copy(&mut self, copy: CopyNo) -> CopyState
        requires copy { copy < (facts self.old.desk).copies }
        requires few { length self.old.asked < 4 }
        ensures answer { result ≡ (desk_of self.old.desk).copy copy }
        ensures known { IsKnownState (facts self.old.desk) result }
        ensures desk { self.new.desk ≡ self.old.desk }
        ensures asked { self.new.asked ≡ self.old.asked ++ ValueOf (CopyCell copy) ∷ [] }
        ensures more { length self.new.asked ≡ length self.old.asked + 1 }
    {
        let state = self.desk.copy(copy);
        self.keep(Question::Value(Cell::Copy(copy)), noted_state(&state));
        state
    }

    /// Which hold of the title has the patron?
    pub(crate) fn hold(&mut self, title: TitleNo, patron: PatronNo) -> Option<Hold>
        requires title { title < (facts self.old.desk).titles }
        requires few { length self.old.asked < 4 }
        ensures answer { result ≡ (desk_of self.old.desk).hold title patron }
        ensures known { IsKnownHeld (facts self.old.desk) result }
        ensures desk { self.new.desk ≡ self.old.desk }
        ensures asked { self.new.asked ≡ self.old.asked ++ ValueOf (HoldCell title patron) ∷ [] }
        ensures more { length self.new.asked ≡ length self.old.asked + 1 }
    {
        let held = self.desk.hold(title, patron);
        self.keep(
            Question::Value(Cell::Hold(title, patron)),
            noted_hold(&held),
        );
        held
    }

    /// Which hold comes first for the copy, at the branch on the day?
    pub(crate) fn choice(&mut self, copy: CopyNo, branch: BranchNo, day: Day) -> Option<Hold>
        requires copy { copy < (facts self.old.desk).copies }
        requires few { length self.old.asked < 4 }
        ensures answer { result ≡ choice (facts self.old.desk) (desk_of self.old.desk) copy branch day }
        ensures known { IsKnownHeld (facts self.old.desk) result }
        ensures desk { self.new.desk ≡ self.old.desk }
        ensures asked { self.new.asked ≡ self.old.asked ++ Choice copy branch day ∷ [] }
        ensures more { length self.new.asked ≡ length self.old.asked + 1 }
    {
        let chosen = self.desk.choice(copy, branch, day);
        self.keep(Question::Choice(copy, branch, day), noted_choice(&chosen));
        chosen
    }

    /// Which is the least free place of the branch's hold shelf?
    pub(crate) fn place(&mut self, branch: BranchNo) -> u32
        requires branch { branch < (facts self.old.desk).branches }
        requires few { length self.old.asked < 4 }
        ensures answer { result ≡ place (facts self.old.desk) (desk_of self.old.desk) branch }
        ensures desk { self.new.desk ≡ self.old.desk }
        ensures asked { self.new.asked ≡ self.old.asked ++ Place branch ∷ [] }
        ensures more { length self.new.asked ≡ length self.old.asked + 1 }
    {
        let place = self.desk.place(branch);
        self.keep(Question::Place(branch), Noted::Place(place));
        place
    }

    /// Has the patron fewer loans than the limit?
    pub(crate) fn room(&mut self, patron: PatronNo) -> bool
        requires patron { patron < (facts self.old.desk).patrons }
        requires few { length self.old.asked < 4 }
        ensures answer { result ≡ nat_lt (loans (facts self.old.desk) (desk_of self.old.desk) patron)
            ((facts self.old.desk).loan_limit patron) }
        ensures desk { self.new.desk ≡ self.old.desk }
        ensures asked { self.new.asked ≡ self.old.asked ++ Room patron ∷ [] }
        ensures more { length self.new.asked ≡ length self.old.asked + 1 }
    {
        let loans = self.desk.loans(patron);
        self.keep(Question::Room(patron), Noted::Room(loans));
        loans < self.desk.most_loans(patron)
    }

    /// Which position has a hold with this stamp in the title's queue?
    pub(crate) fn position(&mut self, title: TitleNo, stamp: u64) -> u64
        requires title { title < (facts self.old.desk).titles }
        requires few { length self.old.asked < 4 }
        ensures answer { result ≡ position (facts self.old.desk) (desk_of self.old.desk) title stamp }
        ensures desk { self.new.desk ≡ self.old.desk }
        ensures asked { self.new.asked ≡ self.old.asked ++ Position title stamp ∷ [] }
        ensures more { length self.new.asked ≡ length self.old.asked + 1 }
    {
        let position = self.desk.position(title, stamp);
        self.keep(Question::Position(title, stamp), Noted::Position(position));
        position
    }

    /// Whether some copy of the title that such a hold admits is on an open shelf.
    pub(crate) fn on_shelf(&mut self, title: TitleNo, kind: &HoldKind, pickup: BranchNo) -> bool
        requires title { title < (facts self.old.desk).titles }
        requires few { length self.old.asked < 4 }
        ensures answer { result ≡ nat_lt 0
            (on_shelf (facts self.old.desk) (desk_of self.old.desk) title kind.now pickup) }
        ensures desk { self.new.desk ≡ self.old.desk }
        ensures asked { self.new.asked ≡ self.old.asked ++ OnShelf title kind.now pickup ∷ [] }
        ensures more { length self.new.asked ≡ length self.old.asked + 1 }
    {
        let copies = self.desk.on_shelf(title, kind, pickup);
        self.keep(
            Question::OnShelf(title, *kind, pickup),
            Noted::OnShelf(copies),
        );
        0 < copies
    }
}

/// What a copy's cell has, noted.
fn noted_state(state: &CopyState) -> Noted
    ensures { result ≡ noted.Value (CopyHas state.now) }
{
    Noted::Value(Value::Copy(*state))
}

/// What the cell of a title and a patron has, noted.
fn noted_hold(held: &Option<Hold>) -> Noted
    ensures { result ≡ noted.Value (HoldHas held.now) }
{
    Noted::Value(Value::Hold(*held))
}

/// The hold that comes first, noted.
fn noted_choice(chosen: &Option<Hold>) -> Noted
    ensures { result ≡ noted.Choice chosen.now }
{
    Noted::Choice(*chosen)
}
