//! Names by numbers: none of none, nor of a number that the catalogue doesn't have.
ghost use Rattle.std.specs.Prelude.{◌≡◌, option_and_then, option_map};
ghost use Rattle.hd_catalogue.specs.Contents.{branch_name, copy_name, patron_name, terminal_name, title_name};
ghost use Rattle.hd_list_pages.specs.Naming.{home_name_of, title_name_of};

use hd_catalogue::Catalogue;
use hd_rules::{BranchNo, CopyNo, PatronNo, TerminalNo, TitleNo};
use std::alloc::Allocator;

/// The name of a copy.
pub(crate) fn copy_name<A: Allocator + Copy>(
    catalogue: &Catalogue<A>,
    copy: Option<CopyNo>,
) -> Option<&[u8]>
    ensures { option_map (λ bytes. bytes.now) result ≡ option_and_then (copy_name catalogue.now) copy }
{
    let copy = copy?;
    if (copy.number() as usize) < catalogue.copies() {
        Some(catalogue.copy_name(copy))
    } else {
        None
    }
}

/// The name of a copy's title.
pub(crate) fn title_name_of<A: Allocator + Copy>(
    catalogue: &Catalogue<A>,
    copy: Option<CopyNo>,
) -> Option<&[u8]>
    ensures { option_map (λ bytes. bytes.now) result ≡ option_and_then (title_name_of catalogue.now) copy }
{
    let copy = copy?;
    if (copy.number() as usize) < catalogue.copies() {
        Some(catalogue.title_name(catalogue.title_of(copy)))
    } else {
        None
    }
}

/// The name of a copy's home.
pub(crate) fn home_name_of<A: Allocator + Copy>(
    catalogue: &Catalogue<A>,
    copy: Option<CopyNo>,
) -> Option<&[u8]>
    ensures { option_map (λ bytes. bytes.now) result ≡ option_and_then (home_name_of catalogue.now) copy }
{
    let copy = copy?;
    if (copy.number() as usize) < catalogue.copies() {
        Some(catalogue.branch_name(catalogue.home(copy)))
    } else {
        None
    }
}

/// The name of a title.
pub(crate) fn title_name<A: Allocator + Copy>(
    catalogue: &Catalogue<A>,
    title: Option<TitleNo>,
) -> Option<&[u8]>
    ensures { option_map (λ bytes. bytes.now) result ≡ option_and_then (title_name catalogue.now) title }
{
    let title = title?;
    if (title.number() as usize) < catalogue.titles() {
        Some(catalogue.title_name(title))
    } else {
        None
    }
}

/// The name of a branch.
pub(crate) fn branch_name<A: Allocator + Copy>(
    catalogue: &Catalogue<A>,
    branch: Option<BranchNo>,
) -> Option<&[u8]>
    ensures { option_map (λ bytes. bytes.now) result ≡ option_and_then (branch_name catalogue.now) branch }
{
    let branch = branch?;
    if (branch.number() as usize) < catalogue.branches() {
        Some(catalogue.branch_name(branch))
    } else {
        None
    }
}

/// The name of a patron.
pub(crate) fn patron_name<A: Allocator + Copy>(
    catalogue: &Catalogue<A>,
    patron: Option<PatronNo>,
) -> Option<&[u8]>
    ensures { option_map (λ bytes. bytes.now) result ≡ option_and_then (patron_name catalogue.now) patron }
{
    let patron = patron?;
    if (patron.number() as usize) < catalogue.patrons() {
        Some(catalogue.patron_name(patron))
    } else {
        None
    }
}

/// The name of a terminal.
pub(crate) fn terminal_name<A: Allocator + Copy>(
    catalogue: &Catalogue<A>,
    terminal: TerminalNo,
) -> Option<&[u8]>
    ensures { option_map (λ bytes. bytes.now) result ≡ terminal_name catalogue.now terminal }
{
    if (terminal.number() as usize) < catalogue.terminals() {
        Some(catalogue.terminal_name(terminal))
    } else {
        None
    }
}
