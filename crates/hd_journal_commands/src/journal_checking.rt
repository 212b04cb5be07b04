//! What `journal check` reports of a journal's file.

use crate::fault::JournalCommandFault;
use hd_command_line::JournalCheck;
use hd_folder::Paths;
use hd_journal::Journal;
use hd_journal_file::OpenFault;
use hd_library_journal::{Keeping, KeptJournal, LibraryJournalFault, end_journal, open_kept};
use hd_server::summary_of;
use hd_terminal_output::Away;
use hd_turn_store::Unknown;
use std::io;

/// Reports what the desk is after the turns of a journal's file, each taken again and compared, or why the
/// file is refused. There has to be one.
///
/// # Errors
/// There is none, or it is refused; the output can't be written; out of memory.
pub fn check_journal(
    rt: &HostRuntime,
    order: &JournalCheck<'_>,
) -> Result<(), JournalCommandFault> {
    let paths = Paths::of(rt, &order.library)?;
    paths.tell(rt, "checking")?;
    let keeping = Keeping::of(&paths);
    let kept = match open_kept(rt, Unknown, &keeping) {
        Err(LibraryJournalFault::Journal(OpenFault::OtherCatalogue)) if order.is_other_accepted => {
            open_with_other(rt, &keeping)?
        }
        opened => opened?,
    };
    let told = tell(rt, kept.answered_journal()?);
    end_journal(kept)?;
    Ok(told?)
}

/// Opens a journal's file that was written with another catalogue, accepts it, and reports that.
///
/// # Errors
/// It is refused.
fn open_with_other(
    rt: &HostRuntime,
    keeping: &Keeping<'_>,
) -> Result<KeptJournal<Unknown>, JournalCommandFault> {
    let library = keeping.library;
    let kept = open_kept(
        rt,
        Unknown,
        &Keeping {
            library,
            period: keeping.period,
            is_other_accepted: true,
            is_for_turns: false,
        },
    )?;
    let journal = keeping.journal();
    let catalogue = library.catalogue;
    eprintln!(rt; "accepted: {journal} belongs to {catalogue} now")?;
    Ok(kept)
}

/// Writes what a journal comes to, a line for each number.
fn tell<R: Print>(rt: &R, journal: &Journal) -> io::Result<()> {
    let away = Away::of(journal.desk());
    let summary = summary_of(journal);
    println!(rt;
        "turns: {}\nsurvivors: {}\ncopies on loan: {}\ncopies on hold shelves: {}\ncopies in transit: {}",
        summary.turns, summary.survivors, away.on_loan, away.on_hold_shelves, away.in_transit
    )
}
