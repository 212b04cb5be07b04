//! Numbers from 0 on, and how many there are.
ghost use Rattle.std.specs.Prelude.{◌≡◌, ◌<◌, ◌≤◌};
ghost use Rattle.hd_rules.specs.declared.limits.TheConstants.{MOST_BRANCHES, MOST_COPIES, MOST_PATRONS};
ghost use Rattle.hd_rules.specs.declared.limits.TheConstants.{MOST_TITLES};
ghost use Rattle.hd_rules.specs.Facts.{AreInRange};
ghost use Rattle.hd_desk.specs.Desks.{facts};

use hd_desk::Desk;
use hd_rules::{BranchNo, CopyNo, PatronNo, TitleNo};
use std::alloc::Allocator;

/// How many copies a desk has.
pub(crate) fn copies_of<A: Allocator + Copy>(desk: &Desk<A>) -> usize
    ensures count { result ≡ (facts desk.now).copies }
    ensures range { AreInRange (facts desk.now) }
    ensures within { result ≤ MOST_COPIES }
{
    desk.catalogue().copies()
}

/// How many titles a desk has.
pub(crate) fn titles_of<A: Allocator + Copy>(desk: &Desk<A>) -> usize
    ensures count { result ≡ (facts desk.now).titles }
    ensures within { result ≤ MOST_TITLES }
{
    desk.catalogue().titles()
}

/// The branch of a number.
pub(crate) fn branch_at(number: usize) -> BranchNo
    requires { number < MOST_BRANCHES }
    ensures { result ≡ number }
{
    BranchNo::new(number as u16).unwrap()
}

/// The title of a number.
pub(crate) fn title_at(number: usize) -> TitleNo
    requires { number < MOST_TITLES }
    ensures { result ≡ number }
{
    TitleNo::new(number as u32).unwrap()
}

/// The copy of a number.
pub(crate) fn copy_at(number: usize) -> CopyNo
    requires { number < MOST_COPIES }
    ensures { result ≡ number }
{
    CopyNo::new(number as u32).unwrap()
}

/// The patron of a number.
pub(crate) fn patron_at(number: usize) -> PatronNo
    requires { number < MOST_PATRONS }
    ensures { result ≡ number }
{
    PatronNo::new(number as u32).unwrap()
}
