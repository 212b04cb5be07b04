//! A journal that is kept in a file.
ghost use Rattle.std.specs.Prelude.{◌≡◌, Err};
ghost use Rattle.hd_journal_file.specs.declared.open_fault.OpenFault.{OpenFault};
ghost use Rattle.hd_library_journal.specs.declared.fault.LibraryJournalFault.TheVariants.{Journal};

use crate::ending::ended_for;
use crate::fault::LibraryJournalFault;
use crate::retaking::Retaking;
use hd_command_line::LibraryFiles;
use hd_durable::DurableJournal;
use hd_folder::{FolderFault, Paths, Period, see_journal};
use hd_journal_file::{JournalFile, OpenFault, Wanted, open};
use hd_library::Library;
use hd_turn_store::{FileFrom, FileStore, Start, connect};
use std::io;

/// A journal whose changing turns are committed to a file before they are answered.
pub type KeptJournal<S> = DurableJournal<JournalFile<FileStore<FileFrom<S>>, S>>;

/// A library whose journal is kept in a file, and what is accepted of that.
#[derive(Clone, Copy)]
pub struct Keeping<'a> {
    /// The library's files.
    pub library: LibraryFiles<'a>,
    /// The period that they are of, where they are of one: it has to be the last one of its folder.
    pub period: Option<&'a Period>,
    /// Whether a journal that was written with another catalogue is accepted, where each of its turns is
    /// answered the same with this one.
    pub is_other_accepted: bool,
    /// Whether turns are taken: the file then says that a server has it open.
    pub is_for_turns: bool,
}

impl<'a> Keeping<'a> {
    /// A library at these paths, whose journal takes no turns, and was written with its catalogue.
    pub fn of(paths: &'a Paths) -> Keeping<'a> {
        Keeping {
            library: paths.files(),
            period: paths.numbered(),
            is_other_accepted: false,
            is_for_turns: false,
        }
    }

    /// The path of the journal's file.
    pub fn journal(&self) -> &'a str {
        self.library.journal.unwrap_or("")
    }

    /// Checks that the period of the files is still the last one of its folder.
    ///
    /// # Errors
    /// Those of `Period::see_last`.
    fn see_last(&self, rt: &HostRuntime) -> Result<(), FolderFault> {
        match self.period {
            Some(period) => period.see_last(rt),
            None => Ok(()),
        }
    }
}

/// Opens a journal's file, which has to be there. Each turn that it holds is taken again and compared.
/// Progress is reported on standard error.
///
/// # Errors
/// A file of the library can't be read, or is refused; those of `open_over`.
pub fn open_kept<S: Start>(
    rt: &HostRuntime,
    start: S,
    keeping: &Keeping<'_>,
) -> Result<KeptJournal<S>, LibraryJournalFault> {
    let library = Library::read_text(rt, &keeping.library)?;
    open_over(rt, start, keeping, library)
}

/// Opens a journal's file, which has to be there, over its library, which was read. Until it is open a carry
/// may end, and the library have gone on to the next period: what is done to this one would then be lost.
///
/// # Errors
/// It is refused; its period isn't the last one of its folder any more.
pub fn open_over<S: Start>(
    rt: &HostRuntime,
    start: S,
    keeping: &Keeping<'_>,
    library: Library,
) -> Result<KeptJournal<S>, LibraryJournalFault> {
    see_journal(rt, keeping.journal())?;
    let kept = take_again(rt, start, keeping, library)?;
    match keeping.see_last(rt) {
        Ok(()) => Ok(kept),
        Err(fault) => Err(ended_for(kept, LibraryJournalFault::from(fault))),
    }
}

/// Takes the turns of a journal's file again, over its library.
fn take_again<S: Start>(
    rt: &HostRuntime,
    start: S,
    keeping: &Keeping<'_>,
    library: Library,
) -> Result<KeptJournal<S>, LibraryJournalFault> {
    let digest = library.digest;
    let wanted = Wanted {
        digest: &digest,
        is_other_accepted: keeping.is_other_accepted,
    };
    let journal = library.journal(rt)?;
    let mut retaking = Retaking::begin(rt)?;
    let opened = open(
        rt.alloc(),
        connect(rt, keeping.journal(), start),
        &wanted,
        keeping.is_for_turns,
        journal,
        &mut retaking,
    );
    opened_told(opened, retaking.end())
}

/// What was opened, if progress could be reported. The type is a parameter, because the proof that a journal
/// is dropped takes long for a journal's whole type.
///
/// # Errors
/// Why it can't be opened; else that progress can't be reported.
fn opened_told<T: Drop>(
    opened: Result<T, OpenFault>,
    told: io::Result<()>,
) -> Result<T, LibraryJournalFault>
    ensures { (why : OpenFault) → opened ≡ Err why → result ≡ Err (Journal why) }
{
    match (opened, told) {
        (Err(fault), _) => Err(LibraryJournalFault::from(fault)),
        (Ok(_), Err(error)) => Err(LibraryJournalFault::from(error)),
        (Ok(opened), Ok(())) => Ok(opened),
    }
}
