//! The names of a library's things, by their numbers. A number that the library doesn't have has an empty
//! name.

use hd_catalogue::Catalogue;
use hd_rules::{BranchNo, CopyNo, PatronNo, TerminalNo, TitleNo};

/// The name of a branch.
pub fn branch_name(catalogue: &Catalogue, branch: BranchNo) -> &[u8] {
    if (branch.number() as usize) < catalogue.branches() {
        catalogue.branch_name(branch)
    } else {
        b""
    }
}

/// The name of a copy.
pub fn copy_name(catalogue: &Catalogue, copy: CopyNo) -> &[u8] {
    if (copy.number() as usize) < catalogue.copies() {
        catalogue.copy_name(copy)
    } else {
        b""
    }
}

/// The name of a patron.
pub fn patron_name(catalogue: &Catalogue, patron: PatronNo) -> &[u8] {
    if (patron.number() as usize) < catalogue.patrons() {
        catalogue.patron_name(patron)
    } else {
        b""
    }
}

/// The name of a terminal.
pub fn terminal_name(catalogue: &Catalogue, terminal: TerminalNo) -> &[u8] {
    if (terminal.number() as usize) < catalogue.terminals() {
        catalogue.terminal_name(terminal)
    } else {
        b""
    }
}

/// The name of a title.
pub fn title_name(catalogue: &Catalogue, title: TitleNo) -> &[u8] {
    if (title.number() as usize) < catalogue.titles() {
        catalogue.title_name(title)
    } else {
        b""
    }
}
