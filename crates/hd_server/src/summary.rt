//! The summary of a hall that is closed.
ghost use Rattle.hd_server.specs.Summaries.{IsSummary};

use hd_journal::Journal;

/// What is left of a server with a journal in memory: the journal that its closed hall gave back, and its
/// numbers.
#[derive(Drop)]
pub struct ClosedJournal {
    /// The journal.
    pub journal: Journal,
    /// Its numbers.
    pub summary: Summary,
}

/// What a closed hall's journal holds.
#[derive(Clone, Copy, Debug, PartialEq, Eq)]
pub struct Summary {
    /// How many turns were made.
    pub turns: usize,
    /// How many commands were accepted and not cancelled.
    pub survivors: usize,
}

/// The numbers of a journal.
pub fn summary_of(journal: &Journal) -> Summary
    ensures { IsSummary journal.now.contents journal.now.turns result }
{
    prove!(journal.last() <= u64::MAX);
    Summary {
        turns: journal.front(),
        survivors: journal.survivors().count(),
    }
}
