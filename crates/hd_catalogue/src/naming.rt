//! The names of numbers.
//!
//! Each number is one that this catalogue gave.
#![tactic(auto, unfolding(crate::specs::Contents::facts_of, crate::specs::Contents::branch_number, crate::specs::Contents::title_number, crate::specs::Contents::copy_number, crate::specs::Contents::patron_number, crate::specs::Contents::branch_name, crate::specs::Contents::terminal_name, crate::specs::Contents::title_name, crate::specs::Contents::copy_name, crate::specs::Contents::patron_name,))]

ghost use Rattle.std.specs.Prelude.{◌≡◌, ◌<◌, Some, true};
ghost use Rattle.hd_catalogue.specs.Names.{number_of};
ghost use Rattle.hd_catalogue.specs.Text.{is_name};
ghost use Rattle.hd_catalogue.specs.Contents.{IsShortName, facts_of};
ghost use Rattle.hd_catalogue.specs.Contents.{branch_name, copy_name, patron_name, terminal_name, title_name};
ghost use Rattle.hd_catalogue.specs.Contents.{branch_number, copy_number, patron_number, title_number};

use crate::catalogue::Catalogue;
use hd_rules::{BranchNo, CopyNo, PatronNo, TerminalNo, TitleNo};
use std::alloc::Allocator;

impl<A: Allocator + Copy> Catalogue<A> {
    /// The name of a branch.
    pub fn branch_name(&self, branch: BranchNo) -> &[u8]
        requires { branch < (facts_of self.now).branches }
        ensures name { branch_name self.now branch ≡ Some result.now }
        ensures found { branch_number self.now result.now ≡ Some branch }
        ensures proper { is_name result.now ≡ true }
        ensures short { IsShortName result.now }
    {
        let number = branch.number() as usize;
        self.branches.name(number).unwrap()
    }

    /// The name of a terminal.
    pub fn terminal_name(&self, terminal: TerminalNo) -> &[u8]
        requires { terminal < (facts_of self.now).terminals }
        ensures name { terminal_name self.now terminal ≡ Some result.now }
        ensures found { number_of self.now.terminals result.now ≡ Some terminal }
        ensures proper { is_name result.now ≡ true }
        ensures short { IsShortName result.now }
    {
        let number = terminal.number() as usize;
        self.terminals.name(number).unwrap()
    }

    /// The name of a title.
    pub fn title_name(&self, title: TitleNo) -> &[u8]
        requires { title < (facts_of self.now).titles }
        ensures name { title_name self.now title ≡ Some result.now }
        ensures found { title_number self.now result.now ≡ Some title }
        ensures proper { is_name result.now ≡ true }
        ensures short { IsShortName result.now }
    {
        let number = title.number() as usize;
        self.titles.name(number).unwrap()
    }

    /// The name of a copy.
    pub fn copy_name(&self, copy: CopyNo) -> &[u8]
        requires { copy < (facts_of self.now).copies }
        ensures name { copy_name self.now copy ≡ Some result.now }
        ensures found { copy_number self.now result.now ≡ Some copy }
        ensures proper { is_name result.now ≡ true }
        ensures short { IsShortName result.now }
    {
        let number = copy.number() as usize;
        self.copies.name(number).unwrap()
    }

    /// The name of a patron.
    pub fn patron_name(&self, patron: PatronNo) -> &[u8]
        requires { patron < (facts_of self.now).patrons }
        ensures name { patron_name self.now patron ≡ Some result.now }
        ensures found { patron_number self.now result.now ≡ Some patron }
        ensures proper { is_name result.now ≡ true }
        ensures short { IsShortName result.now }
    {
        let number = patron.number() as usize;
        self.patrons.name(number).unwrap()
    }
}
