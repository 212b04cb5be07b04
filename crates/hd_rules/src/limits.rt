//! The limits of a catalogue (docs/catalogue.md).

/// How many branches a catalogue may have.
pub const MOST_BRANCHES: u16 = 999;

/// How many terminals a catalogue may have.
pub const MOST_TERMINALS: u16 = 9_999;

/// How many titles a catalogue may have.
pub const MOST_TITLES: u32 = 1_000_000;

/// How many copies a catalogue may have.
pub const MOST_COPIES: u32 = 1_000_000;

/// How many patrons a catalogue may have.
pub const MOST_PATRONS: u32 = 1_000_000;

/// The longest time of a loan, in days.
pub const MOST_LOAN_DAYS: u32 = 3_650;

/// How many renewals a title may allow.
pub const MOST_RENEWALS: u32 = 99;

/// The highest loan limit of a patron.
pub const MOST_LOANS: u32 = 999;

/// The highest limit of commands: how many numbers a journal may give, after the last one before it.
pub const MOST_COMMANDS: u64 = 1_000_000;

/// The highest last number that may have been given to a command before a journal begins.
pub const MOST_GIVEN: u32 = 999_999_999;
