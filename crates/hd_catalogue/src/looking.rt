//! What is known of a number, and how many there are.
//!
//! Each number is one that this catalogue gave.
#![tactic(auto, unfolding(crate::specs::Contents::facts_of, crate::specs::Contents::branch_of))]

ghost use Rattle.std.specs.Prelude.{◌≡◌, ◌<◌, true};
ghost use Rattle.hd_rules.specs.Facts.{AreInRange};
ghost use Rattle.hd_catalogue.specs.Contents.{IsShortName, branch_of};
ghost use Rattle.hd_catalogue.specs.Contents.{facts_of};
ghost use Rattle.hd_catalogue.specs.Text.{is_name};

use crate::catalogue::Catalogue;
use hd_date::OffsetMinutes;
use hd_rules::{BranchNo, CopyNo, PatronNo, TerminalNo, TitleNo};
use std::alloc::Allocator;

impl<A: Allocator + Copy> Catalogue<A> {
    /// The institution, which replies carry in AO.
    pub fn institution(&self) -> &[u8]
        ensures name { result.now ≡ self.now.institution }
        ensures proper { is_name result.now ≡ true }
        ensures short { IsShortName result.now }
    {
        self.institution.as_slice()
    }

    /// How many minutes local time is later than universal time.
    pub fn offset(&self) -> OffsetMinutes
        ensures { result ≡ self.now.settings.offset }
    {
        self.settings.offset
    }

    /// How many numbers can be given to commands.
    pub fn command_limit(&self) -> u64
        ensures limit { result ≡ (facts_of self.now).command_limit }
        ensures facts { AreInRange (facts_of self.now) }
    {
        self.settings.command_limit
    }

    /// How many branches there are.
    pub fn branches(&self) -> usize
        ensures count { result ≡ (facts_of self.now).branches }
        ensures facts { AreInRange (facts_of self.now) }
    {
        self.branches.count()
    }

    /// How many terminals there are.
    pub fn terminals(&self) -> usize
        ensures count { result ≡ (facts_of self.now).terminals }
        ensures facts { AreInRange (facts_of self.now) }
    {
        self.terminals.count()
    }

    /// How many patrons there are.
    pub fn patrons(&self) -> usize
        ensures count { result ≡ (facts_of self.now).patrons }
        ensures facts { AreInRange (facts_of self.now) }
    {
        self.patrons.count()
    }

    /// How many titles there are.
    pub fn titles(&self) -> usize
        ensures count { result ≡ (facts_of self.now).titles }
        ensures facts { AreInRange (facts_of self.now) }
    {
        self.titles.count()
    }

    /// How many copies there are.
    pub fn copies(&self) -> usize
        ensures count { result ≡ (facts_of self.now).copies }
        ensures facts { AreInRange (facts_of self.now) }
    {
        self.copies.count()
    }

    /// The branch at which a terminal stands.
    pub fn branch_of(&self, terminal: TerminalNo) -> BranchNo
        requires { terminal < (facts_of self.now).terminals }
        ensures branch { result ≡ branch_of self.now terminal }
        ensures in_range { result < (facts_of self.now).branches }
    {
        let number = terminal.number() as usize;
        self.terminals.facts(number).unwrap().branch()
    }

    /// The most loans that a patron may have at a time.
    pub fn loan_limit(&self, patron: PatronNo) -> u32
        requires { patron < (facts_of self.now).patrons }
        ensures { result ≡ (facts_of self.now).loan_limit patron }
    {
        let number = patron.number() as usize;
        self.patrons.facts(number).unwrap().loan_limit
    }

    /// The days of a title's loan.
    pub fn loan_days(&self, title: TitleNo) -> u32
        requires { title < (facts_of self.now).titles }
        ensures { result ≡ (facts_of self.now).loan_days title }
    {
        let number = title.number() as usize;
        self.titles.facts(number).unwrap().loan_days
    }

    /// The most renewals of a title's loan.
    pub fn renewals(&self, title: TitleNo) -> u32
        requires { title < (facts_of self.now).titles }
        ensures { result ≡ (facts_of self.now).renewals title }
    {
        let number = title.number() as usize;
        self.titles.facts(number).unwrap().renewals
    }

    /// Whether a title has local priority: where a copy is chosen for at a branch, holds that are picked up
    /// there go first.
    pub fn priority(&self, title: TitleNo) -> bool
        requires { title < (facts_of self.now).titles }
        ensures { result ≡ (facts_of self.now).priority title }
    {
        let number = title.number() as usize;
        self.titles.facts(number).unwrap().local_priority
    }

    /// The title of a copy.
    pub fn title_of(&self, copy: CopyNo) -> TitleNo
        requires { copy < (facts_of self.now).copies }
        ensures title { result ≡ (facts_of self.now).title_of copy }
        ensures in_range { result < (facts_of self.now).titles }
        ensures facts { AreInRange (facts_of self.now) }
    {
        let number = copy.number() as usize;
        self.copies.facts(number).unwrap().title
    }

    /// The branch that a copy belongs to.
    pub fn home(&self, copy: CopyNo) -> BranchNo
        requires { copy < (facts_of self.now).copies }
        ensures branch { result ≡ (facts_of self.now).home copy }
        ensures in_range { result < (facts_of self.now).branches }
        ensures facts { AreInRange (facts_of self.now) }
    {
        let number = copy.number() as usize;
        self.copies.facts(number).unwrap().home
    }
}
