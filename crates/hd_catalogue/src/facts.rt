//! What a catalogue says of what it numbers.
use hd_date::OffsetMinutes;
use hd_rules::{BranchNo, TitleNo};

/// The version of a catalogue file.
#[derive(Clone, Copy, PartialEq, Eq, Debug)]
pub enum Version {
    /// Titles have no priority in the file: each has the priority `N`.
    One,
    /// Each title's line ends with its priority.
    Two,
}

/// What the first line says besides the institution.
#[derive(Clone, Copy, PartialEq, Eq, Debug)]
pub struct Settings {
    pub version: Version,
    /// Minutes to add to universal time.
    pub offset: OffsetMinutes,
    /// How many numbers a journal may give to commands.
    pub command_limit: u64,
}

/// A branch has a name alone.
#[derive(Clone, Copy, PartialEq, Eq, Debug)]
pub struct BranchFacts {}

/// What a catalogue says of a patron.
#[derive(Clone, Copy, PartialEq, Eq, Debug)]
pub struct PatronFacts {
    /// The most loans at a time.
    pub loan_limit: u32,
}

/// What a catalogue says of a title.
#[derive(Clone, Copy, PartialEq, Eq, Debug)]
pub struct TitleFacts {
    /// The days of a loan.
    pub loan_days: u32,
    /// The most renewals of a loan.
    pub renewals: u32,
    /// Whether, where a copy is chosen for at a branch, holds that are picked up there go first.
    pub local_priority: bool,
}

/// What a catalogue says of a copy.
#[derive(Clone, Copy, PartialEq, Eq, Debug)]
pub struct CopyFacts {
    pub title: TitleNo,
    /// The branch that the copy belongs to.
    pub home: BranchNo,
}
