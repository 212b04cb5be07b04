//! The parts of an obstacle's text.
//!
//! A number that the old catalogue doesn't have has an empty name here.

ghost use Rattle.std.specs.Prelude.{◌≡◌, ◌++◌, OnOk};
ghost use Rattle.hd_carry.specs.Telling.{branch_text, copy_text, part_text, patron_text, title_text};
ghost use Rattle.hd_carry.specs.Telling.{why_text};

use hd_catalogue::Catalogue;
use hd_rules::{BranchNo, CopyNo, PatronNo, TitleNo};
use std::alloc::{AllocError, Allocator};

pub(crate) const LACKS_IT: &[u8] = b", and the new catalogue lacks it";

/// A part of an obstacle's text.
#[derive(Clone, Copy)]
pub(crate) enum Part {
    /// Words as they are.
    Words(&'static [u8]),
    /// The name of a branch.
    Branch(BranchNo),
    /// The name of a title.
    Title(TitleNo),
    /// The name of a copy.
    Copy(CopyNo),
    /// The name of a patron.
    Patron(PatronNo),
    /// Why a copy is lacking.
    Why(CopyNo),
}

/// Adds a part's text.
pub(crate) fn add_part<A: Allocator + Copy>(
    old: &Catalogue<A>,
    new: &Catalogue<A>,
    part: &Part,
    text: &mut Vec<u8, A>,
) -> Result<(), AllocError>
    ensures { OnOk result (text.new.items ≡ text.old.items ++ part_text old.now new.now part.now) }
{
    match *part {
        Part::Words(words) => text.extend_from_slice(words),
        Part::Branch(branch) => text.extend_from_slice(branch_name(old, branch)),
        Part::Title(title) => text.extend_from_slice(title_name(old, title)),
        Part::Copy(copy) => text.extend_from_slice(copy_name(old, copy)),
        Part::Patron(patron) => text.extend_from_slice(patron_name(old, patron)),
        Part::Why(copy) => text.extend_from_slice(why_lacking(old, new, copy)),
    }
}

/// Why a copy is lacking: the new catalogue hasn't its name, or has it under another title.
fn why_lacking<A: Allocator + Copy>(
    old: &Catalogue<A>,
    new: &Catalogue<A>,
    copy: CopyNo,
) -> &'static [u8]
    ensures { result.now ≡ why_text old.now new.now copy }
{
    match new.copy(copy_name(old, copy)) {
        Some(_) => b", and is of another title there",
        None => LACKS_IT,
    }
}

/// The name of a branch.
#[tactic(auto, using(crate::proofs::Tables::no_branch))]
fn branch_name<A: Allocator + Copy>(old: &Catalogue<A>, branch: BranchNo) -> &[u8]
    ensures { result.now ≡ branch_text old.now branch }
{
    if (branch.number() as usize) < old.branches() {
        old.branch_name(branch)
    } else {
        &[]
    }
}

/// The name of a title.
#[tactic(auto, using(crate::proofs::Tables::no_title))]
fn title_name<A: Allocator + Copy>(old: &Catalogue<A>, title: TitleNo) -> &[u8]
    ensures { result.now ≡ title_text old.now title }
{
    if (title.number() as usize) < old.titles() {
        old.title_name(title)
    } else {
        &[]
    }
}

/// The name of a copy.
#[tactic(auto, using(crate::proofs::Tables::no_copy))]
fn copy_name<A: Allocator + Copy>(old: &Catalogue<A>, copy: CopyNo) -> &[u8]
    ensures { result.now ≡ copy_text old.now copy }
{
    if (copy.number() as usize) < old.copies() {
        old.copy_name(copy)
    } else {
        &[]
    }
}

/// The name of a patron.
#[tactic(auto, using(crate::proofs::Tables::no_patron))]
fn patron_name<A: Allocator + Copy>(old: &Catalogue<A>, patron: PatronNo) -> &[u8]
    ensures { result.now ≡ patron_text old.now patron }
{
    if (patron.number() as usize) < old.patrons() {
        old.patron_name(patron)
    } else {
        &[]
    }
}
