//! Look-ups by name.
//!
//! They take borrowed bytes, copy nothing and compare byte by byte.
#![tactic(auto, unfolding(crate::specs::Contents::facts_of, crate::specs::Contents::branch_number, crate::specs::Contents::title_number, crate::specs::Contents::copy_number, crate::specs::Contents::patron_number, crate::specs::Contents::terminal_number, crate::specs::Contents::IsTerminal, crate::specs::Contents::branch_name, crate::specs::Contents::title_name, crate::specs::Contents::copy_name, crate::specs::Contents::patron_name))]

ghost use Rattle.std.specs.Prelude.{◌≡◌, ℕ, ◌<◌, IfNone, IfSome, Some};
ghost use Rattle.hd_catalogue.specs.Contents.{IsTerminal, branch_name, branch_number, copy_name, copy_number};
ghost use Rattle.hd_catalogue.specs.Contents.{facts_of, is_password, patron_name, patron_number};
ghost use Rattle.hd_catalogue.specs.Contents.{terminal_number, title_name, title_number};

use crate::catalogue::Catalogue;
use hd_rules::{BranchNo, CopyNo, PatronNo, TerminalNo, TitleNo};
use std::alloc::Allocator;

impl<A: Allocator + Copy> Catalogue<A> {
    /// The branch whose name these bytes are, or `None` where there is none.
    pub fn branch(&self, name: &[u8]) -> Option<BranchNo>
        ensures number { result ≡ branch_number self.now name.now }
        ensures named { IfSome result (λ branch. branch_name self.now branch ≡ Some name.now) }
        ensures in_range { IfSome result (λ branch. branch < (facts_of self.now).branches) }
        ensures none { IfNone result ((branch : ℕ) → ¬ (branch_name self.now branch ≡ Some name.now)) }
    {
        let number = self.branches.number_of(name)?;
        BranchNo::new(number as u16)
    }

    /// The title whose name these bytes are, or `None` where there is none.
    pub fn title(&self, name: &[u8]) -> Option<TitleNo>
        ensures number { result ≡ title_number self.now name.now }
        ensures named { IfSome result (λ title. title_name self.now title ≡ Some name.now) }
        ensures in_range { IfSome result (λ title. title < (facts_of self.now).titles) }
        ensures none { IfNone result ((title : ℕ) → ¬ (title_name self.now title ≡ Some name.now)) }
    {
        let number = self.titles.number_of(name)?;
        TitleNo::new(number as u32)
    }

    /// The copy whose name these bytes are, or `None` where there is none.
    pub fn copy(&self, name: &[u8]) -> Option<CopyNo>
        ensures number { result ≡ copy_number self.now name.now }
        ensures named { IfSome result (λ copy. copy_name self.now copy ≡ Some name.now) }
        ensures in_range { IfSome result (λ copy. copy < (facts_of self.now).copies) }
        ensures none { IfNone result ((copy : ℕ) → ¬ (copy_name self.now copy ≡ Some name.now)) }
    {
        let number = self.copies.number_of(name)?;
        CopyNo::new(number as u32)
    }

    /// The patron whose name these bytes are, or `None` where there is none.
    pub fn patron(&self, name: &[u8]) -> Option<PatronNo>
        ensures number { result ≡ patron_number self.now name.now }
        ensures named { IfSome result (λ patron. patron_name self.now patron ≡ Some name.now) }
        ensures in_range { IfSome result (λ patron. patron < (facts_of self.now).patrons) }
        ensures none { IfNone result ((patron : ℕ) → ¬ (patron_name self.now patron ≡ Some name.now)) }
    {
        let number = self.patrons.number_of(name)?;
        PatronNo::new(number as u32)
    }

    /// The terminal that has this name and this password, or `None` where there is none.
    pub fn terminal(&self, name: &[u8], word: &[u8]) -> Option<TerminalNo>
        ensures number { result ≡ terminal_number self.now name.now word.now }
        ensures named { IfSome result (λ terminal. IsTerminal self.now terminal name.now word.now) }
        ensures none { IfNone result ((terminal : ℕ) → ¬ IsTerminal self.now terminal name.now word.now) }
        ensures in_range { IfSome result (λ terminal. terminal < (facts_of self.now).terminals) }
    {
        let number = self.terminals.number_of(name)?;
        if !self.is_password(number, word) {
            return None;
        }
        TerminalNo::new(number as u16)
    }

    /// Whether the terminal with a number has this password.
    #[tactic(auto, unfolding(crate::specs::Contents::is_password))]
    fn is_password(&self, number: usize, word: &[u8]) -> bool
        ensures { result ≡ is_password self.now number word.now }
    {
        match self.terminals.facts(number) {
            Some(facts) => facts.has_password(word),
            None => false,
        }
    }
}
