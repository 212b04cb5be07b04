//! Counts of the copies on open shelves.
ghost use Rattle.std.specs.Prelude.{◌≡◌, ℕ, ◌<◌, IfOk, OnOk, OnErr, IsOk, length};
ghost use Rattle.hd_rules.specs.declared.limits.TheConstants.{MOST_COPIES};
ghost use Rattle.hd_open_shelf.specs.Counts.{of_title, of_home, HasEntry, HasOneCopyMore, KeepsEntries};

use crate::home::Home;
use hd_rules::{BranchNo, TitleNo};
use indexmap::IndexMap;
use std::alloc::{AllocError, Allocator, Global};
use std::hash::{BuildHasherDefault, FoldHasher};
use std::marker::Model;

/// How many copies of a title stand on open shelves, by title, and by title and home branch.
///
/// The table of homes hashes by a fixed seed: its keys are numbers of the library's own titles and branches.
/// An entry stays once it is made, also at a count of 0, so that a copy that returns takes no memory.
#[derive(Drop)]
pub struct Stock<A: Allocator = Global> {
    titles: Vec<u32, A>,
    homes: IndexMap<Home, u32, BuildHasherDefault<FoldHasher>, A>,
}

impl<A: Allocator> Model for Stock<A> {
    ghost use Rattle.hd_open_shelf.specs.StockValue.{StockValue};

    ghost Value = { StockValue };

    ghost view = { λ s. record { titles = s.titles.items; homes = s.homes.entries } };
}

impl<A: Allocator + Copy> Stock<A> {
    /// No copies, with a count for each title below this number. Answers `AllocError` where there is no
    /// memory for them.
    pub fn new(alloc: A, titles: usize) -> Result<Stock<A>, AllocError>
        ensures titles { IfOk result (λ made. length made.titles ≡ titles) }
        ensures no_copies { IfOk result (λ made. (title : ℕ) → of_title made title ≡ 0) }
        ensures no_homes { IfOk result (λ made. (title home : ℕ) → of_home made title home ≡ 0) }
    {
        let titles = vec![in alloc; 0; titles]?;
        Ok(Stock {
            titles,
            homes: IndexMap::new(alloc),
        })
    }

    /// One more copy of the title, with this home, stands on an open shelf.
    ///
    /// Takes memory only for a home that the title had no entry for. On `AllocError` nothing is changed.
    pub fn stock(&mut self, title: TitleNo, home: BranchNo) -> Result<(), AllocError>
        requires title { title < length self.old.titles }
        requires copies { of_title self.old title < MOST_COPIES }
        requires copies_of_home { of_home self.old title home < MOST_COPIES }
        ensures ok { OnOk result (HasOneCopyMore self.new self.old title home) }
        ensures entry { OnOk result (HasEntry self.new title home) }
        ensures err { OnErr result (self.new ≡ self.old) }
        ensures full { HasEntry self.old title home → IsOk result }
        ensures entries { KeepsEntries self.old self.new }
    {
        let key = Home {
            title,
            branch: home,
        };
        let count = self.of_home(title, home);
        self.homes.insert(key, count + 1)?;
        let at = title.number() as usize;
        self.titles[at] += 1;
        Ok(())
    }
}

impl<A: Allocator> Stock<A> {
    /// One more copy of the title, with this home, stands on an open shelf. Takes no memory.
    pub fn put(&mut self, title: TitleNo, home: BranchNo)
        requires entry { HasEntry self.old title home }
        requires copies { of_title self.old title < MOST_COPIES }
        requires copies_of_home { of_home self.old title home < MOST_COPIES }
        ensures one_more { HasOneCopyMore self.new self.old title home }
        ensures entries { KeepsEntries self.old self.new }
    {
        self.titles[title.number() as usize] += 1;
        let key = Home {
            title,
            branch: home,
        };
        if let Some(count) = self.homes.get_mut(&key) {
            *count += 1;
        }
    }

    /// One copy of the title, with this home, no longer stands on an open shelf. Takes no memory.
    pub fn take(&mut self, title: TitleNo, home: BranchNo)
        requires some_of_title { 0 < of_title self.old title }
        requires some_of_home { 0 < of_home self.old title home }
        ensures one_less { HasOneCopyMore self.old self.new title home }
        ensures entry { HasEntry self.new title home }
        ensures entries { KeepsEntries self.old self.new }
    {
        self.titles[title.number() as usize] -= 1;
        let key = Home {
            title,
            branch: home,
        };
        if let Some(count) = self.homes.get_mut(&key) {
            *count -= 1;
        }
    }

    /// How many copies of a title stand on open shelves.
    pub fn of_title(&self, title: TitleNo) -> u32
        ensures { result ≡ of_title self.now title }
    {
        let count = self.titles.get(title.number() as usize);
        count.copied().unwrap_or(0)
    }

    /// How many copies of a title with this home stand on open shelves, whichever branch's.
    pub fn of_home(&self, title: TitleNo, home: BranchNo) -> u32
        ensures { result ≡ of_home self.now title home }
    {
        let key = Home {
            title,
            branch: home,
        };
        self.homes.get(&key).copied().unwrap_or(0)
    }
}
