//! What is known of cancellations, and of legal journals.

ghost use Rattle.hd_journal.specs.Laws.{JournalLaws, CancellationLaws};
ghost use Rattle.hd_journal.specs.Growing.{JournalsGrow};

use hd_clash::{
    records_are_about_their_commands, records_are_known, records_split,
    shifted_records_are_those_without, the_first_clash_is_the_first_dependent,
};
use hd_records::walks_are_short;
use hd_rules::{
    a_legal_journal_is_the_run_of_its_survivors, commands_keep_desks_sound, headline,
    legal_journals_go_on, the_first_dependent_is_the_least, the_target_is_the_newest,
    undoing_is_the_run_without,
};

/// The laws from which the promises about a cancellation follow. It does nothing.
pub(crate) fn laws()
    ensures { CancellationLaws }
{
    the_target_is_the_newest();
    commands_keep_desks_sound();
    the_first_dependent_is_the_least();
    undoing_is_the_run_without();
    a_legal_journal_is_the_run_of_its_survivors();
    records_split();
    records_are_known();
    records_are_about_their_commands();
    the_first_clash_is_the_first_dependent();
    shifted_records_are_those_without();
    walks_are_short();
}

/// The laws from which it follows that a journal is legal. It does nothing.
pub(crate) fn journal_laws()
    ensures { JournalLaws }
{
    legal_journals_go_on();
    a_legal_journal_is_the_run_of_its_survivors();
    headline();
}

/// What a journal is, it is under a catalogue that has grown, with the same turns. It does nothing.
pub fn journals_grow()
    ensures { JournalsGrow }
{}
