//! Names and numbers of a line.
#![tactic(auto, unfolding(hd_catalogue::specs::Contents::branch_number, hd_catalogue::specs::Contents::title_number, hd_catalogue::specs::Contents::copy_number, hd_catalogue::specs::Contents::patron_number))]

ghost use Rattle.std.specs.Prelude.{◌≡◌};
ghost use Rattle.hd_catalogue.specs.Text.{number_to};
ghost use Rattle.hd_opening.specs.Lines.{copy_and_branch, copy_and_patron, from_one};

use hd_catalogue::{Catalogue, number};
use hd_rules::{BranchNo, CopyNo, PatronNo};
use std::alloc::Allocator;

/// A copy and a patron by their names.
pub(crate) fn copy_and_patron<A: Allocator + Copy>(
    catalogue: &Catalogue<A>,
    copy: &[u8],
    patron: &[u8],
) -> Option<(CopyNo, PatronNo)>
    ensures { result ≡ copy_and_patron catalogue.now copy.now patron.now }
{
    let copy = catalogue.copy(copy)?;
    let patron = catalogue.patron(patron)?;
    Some((copy, patron))
}

/// A copy and a branch by their names.
pub(crate) fn copy_and_branch<A: Allocator + Copy>(
    catalogue: &Catalogue<A>,
    copy: &[u8],
    branch: &[u8],
) -> Option<(CopyNo, BranchNo)>
    ensures { result ≡ copy_and_branch catalogue.now copy.now branch.now }
{
    let copy = catalogue.copy(copy)?;
    let branch = catalogue.branch(branch)?;
    Some((copy, branch))
}

/// The number from 1 to `most` that these bytes write.
pub(crate) fn number_from_one(most: u32, bytes: &[u8]) -> Option<u32>
    ensures { result ≡ from_one (number_to most bytes.now) }
{
    match number(most, bytes) {
        Some(0) | None => None,
        Some(number) => Some(number),
    }
}
