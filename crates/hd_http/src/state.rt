//! How a library stands, in numbers.

/// Whether a library can do its work.
#[derive(Clone, Copy, Debug, PartialEq, Eq)]
pub enum Health {
    /// It can.
    Well,
    /// The journal is shut: a turn couldn't be written.
    Shut,
    /// No seat can be had: as many were opened as may be.
    Full,
    /// The journal's file is gone from its path: what is answered is lost when the server ends.
    Gone,
}

/// How many turns of one kind ended in which way.
#[derive(Clone, Copy)]
pub struct Tally {
    /// Those that did what they asked, or showed it.
    pub done: u64,
    /// Those that were refused.
    pub refused: u64,
    /// Those that repeated an earlier one, and got its reply again.
    pub repeated: u64,
}

/// The turns that were made since the program began, by kind and outcome.
#[derive(Clone, Copy)]
pub struct Turns {
    /// Checkouts.
    pub checkout: Tally,
    /// Loans that a terminal made off line.
    pub off_line: Tally,
    /// Returns.
    pub checkin: Tally,
    /// Renewals by a renew message.
    pub renewal: Tally,
    /// Holds that were added.
    pub add: Tally,
    /// Holds that were deleted.
    pub delete: Tally,
    /// Holds that were changed.
    pub change: Tally,
    /// Cancellations.
    pub cancel: Tally,
    /// Queries of a copy.
    pub item: Tally,
}

/// What is counted of a journal.
#[derive(Clone, Copy)]
pub struct JournalCounts {
    /// Its turns.
    pub turns: u64,
    /// The last number that was given.
    pub last_number: u64,
    /// How many more can be given.
    pub numbers_left: u64,
}

/// How a library stands. What it lacks, or can't say now, is `None`.
#[derive(Clone, Copy)]
pub struct State {
    /// Whether it can do its work.
    pub health: Health,
    /// The turns since the program began.
    pub turns: Option<Turns>,
    /// What is counted of the journal.
    pub journal: Option<JournalCounts>,
    /// The terminals that are connected.
    pub connections: Option<u64>,
    /// The workers that have a connection in hand.
    pub workers_busy: Option<u64>,
    /// The bytes of the journal's file and its log.
    pub journal_bytes: Option<u64>,
    /// How long the last turn that was committed took to be written, in microseconds.
    pub commit_micros: Option<u64>,
}
