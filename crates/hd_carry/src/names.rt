//! The new numbers of names: one look-up a name.
#![tactic(auto, unfolding(crate::specs::ByNames::by_names, crate::specs::Numbers::renumbering))]

ghost use Rattle.std.specs.Prelude.{◌≡◌, ◌<◌, IfOk, IfSome, OnOk, option_and_then};
ghost use Rattle.hd_catalogue.specs.Contents.{copy_name, copy_number, facts_of};
ghost use Rattle.hd_catalogue.specs.Names.{AreDistinct};
ghost use Rattle.hd_carry.specs.ByNames.{HasDistinctNames, by_names, is_number};
ghost use Rattle.hd_carry.specs.Numbers.{IsFoundAgain, IsTable, renumbering};

use crate::counting::{branch_at, copy_at, patron_at, title_at};
use hd_catalogue::Catalogue;
use hd_rules::{BranchNo, CopyNo, PatronNo, TitleNo};
use std::alloc::{AllocError, Allocator, Global};
use std::marker::Model;

/// The number that each name of an old catalogue has in a new one, where it is there.
///
/// A copy is there where its own name is, under the same title.
#[derive(Drop)]
pub(crate) struct NewNumbers<A: Allocator = Global> {
    branches: Vec<Option<BranchNo>, A>,
    titles: Vec<Option<TitleNo>, A>,
    copies: Vec<Option<CopyNo>, A>,
    patrons: Vec<Option<PatronNo>, A>,
}

impl<A: Allocator> Model for NewNumbers<A> {
    ghost use Rattle.hd_carry.specs.Numbers.{NumberTables};

    ghost Value = { NumberTables };

    ghost view = { λ n. record {
      branches = n.branches.items;
      titles = n.titles.items;
      copies = n.copies.items;
      patrons = n.patrons.items;
    } };
}

impl<A: Allocator + Copy> NewNumbers<A> {
    /// Looks each name of the old catalogue up in the new one. No two old names of a kind are equal.
    pub(crate) fn new(
        alloc: A,
        old: &Catalogue<A>,
        new: &Catalogue<A>,
    ) -> Result<NewNumbers<A>, AllocError>
        ensures numbers { IfOk result (λ numbers. renumbering numbers ≡ by_names old.now new.now) }
        ensures distinct { OnOk result (HasDistinctNames old.now) }
    {
        let titles = title_numbers(alloc, old, new)?;
        let copies = copy_numbers(alloc, old, new, &titles)?;
        Ok(NewNumbers {
            branches: branch_numbers(alloc, old, new)?,
            titles,
            copies,
            patrons: patron_numbers(alloc, old, new)?,
        })
    }

    /// The new number of a branch, where it is there.
    pub(crate) fn branch(&self, branch: BranchNo) -> Option<BranchNo>
        ensures { result ≡ (renumbering self.now).branch branch }
    {
        *self.branches.get(branch.number() as usize)?
    }

    /// The new number of a title, where it is there.
    pub(crate) fn title(&self, title: TitleNo) -> Option<TitleNo>
        ensures { result ≡ (renumbering self.now).title title }
    {
        *self.titles.get(title.number() as usize)?
    }

    /// The new number of a copy, where it is there under the same title.
    pub(crate) fn copy(&self, copy: CopyNo) -> Option<CopyNo>
        ensures { result ≡ (renumbering self.now).copy copy }
    {
        *self.copies.get(copy.number() as usize)?
    }

    /// The new number of a patron, where they are there.
    pub(crate) fn patron(&self, patron: PatronNo) -> Option<PatronNo>
        ensures { result ≡ (renumbering self.now).patron patron }
    {
        *self.patrons.get(patron.number() as usize)?
    }
}

/// The new number of each branch.
fn branch_numbers<A: Allocator + Copy>(
    alloc: A,
    old: &Catalogue<A>,
    new: &Catalogue<A>,
) -> Result<Vec<Option<BranchNo>, A>, AllocError>
    ensures table { IfOk result (λ numbers. IsTable (by_names old.now new.now).branch
        (facts_of old.now).branches numbers.items) }
    ensures distinct { OnOk result (AreDistinct old.now.branches) }
{
    let branches = old.branches();
    let mut numbers = Vec::with_capacity(alloc, branches)?;
    for number in 0..branches {
        numbers.push(new_branch(old, new, branch_at(number)))?;
    }
    Ok(numbers)
}

/// The new number of a branch: one look-up of its name.
fn new_branch<A: Allocator + Copy>(
    old: &Catalogue<A>,
    new: &Catalogue<A>,
    branch: BranchNo,
) -> Option<BranchNo>
    requires { branch < (facts_of old.now).branches }
    ensures number { result ≡ (by_names old.now new.now).branch branch }
    ensures found { IsFoundAgain old.now.branches branch }
{
    new.branch(old.branch_name(branch))
}

/// The new number of each title.
fn title_numbers<A: Allocator + Copy>(
    alloc: A,
    old: &Catalogue<A>,
    new: &Catalogue<A>,
) -> Result<Vec<Option<TitleNo>, A>, AllocError>
    ensures table { IfOk result (λ numbers. IsTable (by_names old.now new.now).title
        (facts_of old.now).titles numbers.items) }
    ensures distinct { OnOk result (AreDistinct old.now.titles) }
{
    let titles = old.titles();
    let mut numbers = Vec::with_capacity(alloc, titles)?;
    for number in 0..titles {
        numbers.push(new_title(old, new, title_at(number)))?;
    }
    Ok(numbers)
}

/// The new number of a title: one look-up of its name.
fn new_title<A: Allocator + Copy>(
    old: &Catalogue<A>,
    new: &Catalogue<A>,
    title: TitleNo,
) -> Option<TitleNo>
    requires { title < (facts_of old.now).titles }
    ensures number { result ≡ (by_names old.now new.now).title title }
    ensures found { IsFoundAgain old.now.titles title }
{
    new.title(old.title_name(title))
}

/// The new number of each patron.
fn patron_numbers<A: Allocator + Copy>(
    alloc: A,
    old: &Catalogue<A>,
    new: &Catalogue<A>,
) -> Result<Vec<Option<PatronNo>, A>, AllocError>
    ensures table { IfOk result (λ numbers. IsTable (by_names old.now new.now).patron
        (facts_of old.now).patrons numbers.items) }
    ensures distinct { OnOk result (AreDistinct old.now.patrons) }
{
    let patrons = old.patrons();
    let mut numbers = Vec::with_capacity(alloc, patrons)?;
    for number in 0..patrons {
        numbers.push(new_patron(old, new, patron_at(number)))?;
    }
    Ok(numbers)
}

/// The new number of a patron: one look-up of its name.
fn new_patron<A: Allocator + Copy>(
    old: &Catalogue<A>,
    new: &Catalogue<A>,
    patron: PatronNo,
) -> Option<PatronNo>
    requires { patron < (facts_of old.now).patrons }
    ensures number { result ≡ (by_names old.now new.now).patron patron }
    ensures found { IsFoundAgain old.now.patrons patron }
{
    new.patron(old.patron_name(patron))
}

/// The new number of each copy, by those of the titles.
fn copy_numbers<A: Allocator + Copy>(
    alloc: A,
    old: &Catalogue<A>,
    new: &Catalogue<A>,
    titles: &[Option<TitleNo>],
) -> Result<Vec<Option<CopyNo>, A>, AllocError>
    requires { IsTable (by_names old.now new.now).title (facts_of old.now).titles titles.now }
    ensures table { IfOk result (λ numbers. IsTable (by_names old.now new.now).copy
        (facts_of old.now).copies numbers.items) }
    ensures distinct { OnOk result (AreDistinct old.now.copies) }
{
    let copies = old.copies();
    let mut numbers = Vec::with_capacity(alloc, copies)?;
    for number in 0..copies {
        numbers.push(new_copy(old, new, copy_at(number), titles))?;
    }
    Ok(numbers)
}

/// The new number of a copy, where its title is the same.
fn new_copy<A: Allocator + Copy>(
    old: &Catalogue<A>,
    new: &Catalogue<A>,
    copy: CopyNo,
    titles: &[Option<TitleNo>],
) -> Option<CopyNo>
    requires known { copy < (facts_of old.now).copies }
    requires titles { IsTable (by_names old.now new.now).title (facts_of old.now).titles titles.now }
    ensures number { result ≡ (by_names old.now new.now).copy copy }
    ensures found { IsFoundAgain old.now.copies copy }
{
    let there = copy_named(old, new, copy)?;
    let title = titles[old.title_of(copy).number() as usize];
    if is_number(title, new.title_of(there)) {
        Some(there)
    } else {
        None
    }
}

/// The number that the new catalogue gives a copy's name, whatever its title: one look-up of the name.
fn copy_named<A: Allocator + Copy>(
    old: &Catalogue<A>,
    new: &Catalogue<A>,
    copy: CopyNo,
) -> Option<CopyNo>
    requires { copy < (facts_of old.now).copies }
    ensures number { result ≡ option_and_then (copy_number new.now) (copy_name old.now copy) }
    ensures in_range { IfSome result (λ there. there < (facts_of new.now).copies) }
    ensures found { IsFoundAgain old.now.copies copy }
{
    new.copy(old.copy_name(copy))
}

/// Whether a title has this number.
fn is_number(title: Option<TitleNo>, number: TitleNo) -> bool
    ensures { result ≡ is_number title number }
{
    match title {
        Some(title) => title == number,
        None => false,
    }
}
