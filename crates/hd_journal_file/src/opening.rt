//! Opening a journal's file.

ghost use Rattle.std.specs.Prelude.{◌≡◌, ◌⊎◌, ◌↔◌, [], false, Err, IfErr, IfOk, IfSome, IsOk, IsTrue};
ghost use Rattle.std.specs.Prelude.{List, MatchResult, OnErr, OnOk, Some};
ghost use Rattle.sqlite.specs.Files.{file_state};
ghost use Rattle.sqlite.specs.Held.{state};
ghost use Rattle.sqlite.specs.State.{HasCleanDisk};
ghost use Rattle.sqlite.specs.Tree.{Trees};
ghost use Rattle.sqlite.specs.WalFiles.{image_at};
ghost use Rattle.hd_journal.specs.Books.{facts};
ghost use Rattle.hd_journal.specs.Changing.{changing};
ghost use Rattle.hd_turn_store.specs.Crashes.{HoldsTurns};
ghost use Rattle.hd_turn_store.specs.Faults.{IsReadingFault, RefusesHead, opening_fault};
ghost use Rattle.hd_turn_store.specs.Holds.{Holds, OnlyReads};
ghost use Rattle.hd_turn_store.specs.Kept.{Head, KeptTurn};
ghost use Rattle.hd_turn_store.specs.Marks.{HasMark, open_mark};
ghost use Rattle.hd_turn_store.specs.declared.fault.Fault.{Fault as StoreFault};
ghost use Rattle.hd_journal_file.specs.Opening.{AreFound, BegunOrSeen, IsBegun, IsFileOf, TakesAgain};
ghost use Rattle.hd_journal_file.specs.Opening.{IsRedated, IsTaken, RefusesConnected, RefusesFile};
ghost use Rattle.hd_journal_file.specs.Opening.{RefusesJournal, RefusesOpenFile, RefusesOver};
ghost use Rattle.hd_journal_file.specs.Restored.{HasTaken};

use crate::file::JournalFile;
use crate::open_fault::OpenFault;
use crate::progress::Progress;
use crate::restoring::restore_turns;
use hd_durable::DurableJournal;
use hd_journal::Journal;
use hd_turn_store::{
    Alter, Connection, FileFrom, FileStore, OpenResult, Start, accept, catalogue, open_for_turns,
};
use sqlite_disk::Disk;
use std::alloc::{AllocError, Global};
use std::sync::Arc;

/// Which catalogue a journal's file has to be of.
#[derive(Clone, Copy)]
pub struct Wanted<'a> {
    /// The SHA-256 of the catalogue file.
    pub digest: &'a [u8; 32],
    /// Whether a file that was written with another catalogue is accepted, where each of its turns has the
    /// same outcome with this one. It is then of this one.
    pub is_other_accepted: bool,
}

/// Opens a journal's file, or begins one where there is none: a journal with the turns that the file holds,
/// each taken again and compared, whose changing turns are committed to the file from now on.
///
/// `connected` is what SQLite answered as the files were opened (`connect` of the store). `journal` has no
/// turns, and its catalogue is the one that is wanted. `progress` gets the number of turns taken again.
/// Where it is opened for turns, the file says so once they are (`open_for_turns` of the store).
///
/// # Errors
/// Each of `OpenFault`: what SQLite answered where it isn't connected (*opening_fault*), or why the journal
/// isn't opened (*RefusesConnected*). The turns in the file stay as they were (`left` of `take_again`).
pub fn open<S: Start, P: Progress>(
    alloc: Global,
    connected: OpenResult<S>,
    wanted: &Wanted<'_>,
    is_for_turns: bool,
    journal: Journal,
    progress: &mut P,
) -> Result<DurableJournal<JournalFile<FileStore<FileFrom<S>>, S>>, OpenFault>
    requires empty { journal.turns ≡ [] }
    ensures contents { IfOk result (λ opened. opened.contents ≡ journal.contents) }
    ensures digest { IfOk result (λ opened. opened.table.digest ≡ Some wanted.now.digest.now) }
    // One is begun only where the files held none, and is of the wanted catalogue.
    ensures begun { IfOk result (λ opened. HasCleanDisk (file_state opened.table.conn)
        → IsTrue opened.table.is_new → IsBegun (image_at S.Start) wanted.now
        (file_state opened.table.conn) opened.turns) }
    ensures found { IfOk result (λ opened. AreFound (image_at S.Start) opened.table.is_new wanted.now
        (file_state opened.table.conn) opened.contents opened.turns) }
    ensures marked { IfOk result (λ opened. HasCleanDisk (file_state opened.table.conn)
        → IsTrue is_for_turns → HasMark open_mark (file_state opened.table.conn).now.trees) }
    ensures why { IfErr result (λ fault. MatchResult connected
        (λ d. RefusesConnected d.conn is_for_turns wanted.now journal fault)
        (λ e. fault ≡ OpenFault.File (opening_fault e.0))) }
{
    let (conn, is_new) = hd_turn_store::open(connected, wanted.digest)?;
    open_files(alloc, conn, is_new, wanted, is_for_turns, journal, progress)
}

/// The same over files that are open: the journal was begun in them, and has no turns yet, or what the
/// connection sees is what `F` stands for.
///
/// # Errors
/// Each of `OpenFault` (*RefusesOver*). The turns in the file stay as they were (`left` of `take_again`).
fn open_files<D: Disk + Drop, F: Start, P: Progress>(
    alloc: Global,
    conn: Connection<FileStore<D>>,
    is_new: bool,
    wanted: &Wanted<'_>,
    is_for_turns: bool,
    journal: Journal,
    progress: &mut P,
) -> Result<DurableJournal<JournalFile<FileStore<D>, F>>, OpenFault>
    requires empty { journal.turns ≡ [] }
    requires file { BegunOrSeen (image_at F.Start) is_new wanted.now (file_state conn) }
    ensures contents { IfOk result (λ opened. opened.contents ≡ journal.contents) }
    ensures digest { IfOk result (λ opened. opened.table.digest ≡ Some wanted.now.digest.now) }
    ensures begun { IfOk result (λ opened. HasCleanDisk (file_state opened.table.conn)
        → IsTrue opened.table.is_new → IsBegun (image_at F.Start) wanted.now
        (file_state opened.table.conn) opened.turns) }
    ensures found { IfOk result (λ opened. AreFound (image_at F.Start) opened.table.is_new wanted.now
        (file_state opened.table.conn) opened.contents opened.turns) }
    ensures marked { IfOk result (λ opened. HasCleanDisk (file_state opened.table.conn)
        → IsTrue is_for_turns → HasMark open_mark (file_state opened.table.conn).now.trees) }
    ensures why { IfErr result (RefusesOver conn is_new is_for_turns wanted.now journal) }
{
    let (conn, journal) = taken_again(alloc, conn, is_new, wanted, journal, progress)?;
    let taken = for_turns(alloc, conn, is_for_turns)?;
    Ok(durable(alloc, taken, is_new, wanted, Some(*wanted.digest), journal)?)
}

/// The connection to a file, and the journal that has taken its turns again (`take_again`).
///
/// # Errors
/// `File`, `OtherCatalogue` and `Turns`.
fn taken_again<S: Alter + Drop, P: Progress>(
    alloc: Global,
    mut conn: Connection<S>,
    is_new: bool,
    wanted: &Wanted<'_>,
    mut journal: Journal,
    progress: &mut P,
) -> Result<(Connection<S>, Journal), OpenFault>
    requires { journal.turns ≡ [] }
    ensures clean { IfOk result (λ r. HasCleanDisk (state S.Store r.0) → HasCleanDisk (state S.Store conn)) }
    ensures begun { IfOk result (λ r. IsTrue is_new → (r.0 ≡ conn) × (r.1 ≡ journal)) }
    ensures taken { IfOk result (λ r. HasCleanDisk (state S.Store r.0) → is_new ≡ false → (head : Head)
        (rows : List KeptTurn) → Holds (state S.Store conn) head rows
        → IsTaken wanted.now (state S.Store r.0) head rows r.1.contents r.1.turns) }
    ensures changing { IfOk result (λ r. changing (facts r.1) r.1.turns ≡ r.1.turns) }
    ensures contents { IfOk result (λ r. r.1.contents ≡ journal.contents) }
    ensures why { IfErr result (λ fault. (is_new ≡ false)
        × RefusesJournal S.Store conn wanted.now journal fault) }
{
    take_again(alloc, &mut conn, is_new, wanted, &mut journal, progress)?;
    Ok((conn, journal))
}

/// The connection to a journal's file as it is, or, for turns, with the mark of a server that has it open.
///
/// # Errors
/// `File`, where the mark can't be written, or the file can't be read again or shows no journal.
fn for_turns<D: Disk + Drop>(
    alloc: Global,
    conn: Connection<FileStore<D>>,
    is_for_turns: bool,
) -> Result<Connection<FileStore<D>>, OpenFault>
    ensures clean { IfOk result (λ c. HasCleanDisk (file_state c) → HasCleanDisk (file_state conn)) }
    ensures same { IfOk result (λ c. HasCleanDisk (file_state c) → (head : Head) (rows : List KeptTurn)
        → Holds (file_state conn) head rows → Holds (file_state c) head rows) }
    ensures marked { IfOk result (λ c. HasCleanDisk (file_state c) → IsTrue is_for_turns
        → HasMark open_mark (file_state c).now.trees) }
    ensures why { IfErr result (λ fault. IsTrue is_for_turns × RefusesOpenFile conn fault) }
{
    if !is_for_turns {
        return Ok(conn);
    }
    match open_for_turns(alloc, conn) {
        Ok(marked) => Ok(marked),
        Err((fault, store)) => {
            drop(store.close());
            Err(OpenFault::File(fault))
        }
    }
}

/// The same over a connection that is open: the journal was begun in it, and has no turns yet, or what the
/// connection sees is what `F` stands for.
///
/// # Errors
/// `File`, `OtherCatalogue`, `Turns` and `Memory`. The turns in the file stay as they were (`left` of
/// `take_again`).
pub fn open_over<S: Alter + Drop, F: Start, P: Progress>(
    alloc: Global,
    mut conn: Connection<S>,
    is_new: bool,
    wanted: &Wanted<'_>,
    mut journal: Journal,
    progress: &mut P,
) -> Result<DurableJournal<JournalFile<S, F>>, OpenFault>
    requires empty { journal.turns ≡ [] }
    requires begun { HasCleanDisk (state S.Store conn) → IsTrue is_new
        → (head : Head) × Holds (state S.Store conn) head [] }
    requires seen { HasCleanDisk (state S.Store conn) → is_new ≡ false → (head : Head) (rows : List KeptTurn)
        → HoldsTurns (image_at F.Start) head rows → Holds (state S.Store conn) head rows }
    ensures file { IfOk result (λ opened. IsFileOf journal.contents opened.contents is_new
        opened.table.is_new wanted.now opened.table.digest) }
    // A journal that was just begun is left as it is.
    ensures new { IsTrue is_new → MatchResult result
        (λ opened. (opened.turns ≡ []) × (opened.table.conn ≡ conn)) (λ fault. fault ≡ OpenFault.Memory) }
    ensures taken { IfOk result (λ opened. TakesAgain (image_at F.Start) opened.table.is_new wanted.now
        (state S.Store conn) (state S.Store opened.table.conn) opened.contents opened.turns) }
    ensures why { IfErr result (λ fault. ((is_new ≡ false)
        × RefusesJournal S.Store conn wanted.now journal fault) ⊎ (fault ≡ OpenFault.Memory)) }
{
    take_again(alloc, &mut conn, is_new, wanted, &mut journal, progress)?;
    let digest = (!is_new).then_some(*wanted.digest);
    Ok(durable(alloc, conn, is_new, wanted, digest, journal)?)
}

/// Has a journal without turns take the turns of a file again, which is then of the catalogue that is wanted.
/// A file that was just begun has no turns.
///
/// # Errors
/// `File`, `OtherCatalogue` and `Turns`.
fn take_again<S: Alter, P: Progress>(
    alloc: Global,
    conn: &mut Connection<S>,
    is_new: bool,
    wanted: &Wanted<'_>,
    journal: &mut Journal,
    progress: &mut P,
) -> Result<(), OpenFault>
    requires { journal.old.turns ≡ [] }
    ensures clean { HasCleanDisk (state S.Store conn.new) → HasCleanDisk (state S.Store conn.old) }
    ensures begun { IsTrue is_new → IsOk result × (conn.new ≡ conn.old) × (journal.new ≡ journal.old) }
    ensures taken { HasCleanDisk (state S.Store conn.new) → is_new ≡ false → OnOk result ((head : Head)
        (rows : List KeptTurn) → Holds (state S.Store conn.old) head rows
        → IsTaken wanted.now (state S.Store conn.new) head rows journal.new.contents journal.new.turns) }
    ensures book { OnOk result (HasTaken journal.old journal.new) }
    ensures why { HasCleanDisk (state S.Store conn.new) → IfErr result (λ fault. (head : Head)
        (rows : List KeptTurn) → Holds (state S.Store conn.old) head rows → RefusesFile
        (state S.Store conn.old) (state S.Store conn.new) wanted.now journal.old head rows fault) }
    ensures other { result ≡ Err OpenFault.OtherCatalogue → wanted.now.is_other_accepted ≡ false }
    // Where it is refused a stop leaves what it could leave before: head and rows, but for a digest whose
    // write failed after all turns were taken.
    ensures left { HasCleanDisk (state S.Store conn.new) → OnErr result ((head : Head) (rows : List KeptTurn)
        → Holds (state S.Store conn.old) head rows → (db : Trees) → (state S.Store conn.new).may_leave db
        → (state S.Store conn.old).may_leave db ⊎ IsRedated wanted.now journal.new head rows db) }
{
    if is_new {
        return Ok(());
    }
    let found = head_of(conn, wanted.digest)?;
    let is_same = found.is_same;
    if !is_same && !wanted.is_other_accepted {
        return Err(OpenFault::OtherCatalogue);
    }
    let _ = restore_turns(conn, found.format, alloc, journal, alloc, progress)?;
    if !is_same {
        accept(conn, wanted.digest)?;
    }
    Ok(())
}

/// What is found in the head of a journal's file.
#[derive(Clone, Copy)]
struct FileHead {
    format: u32,
    /// Whether it is of the wanted catalogue.
    is_same: bool,
}

/// The format of a journal's file, and whether it is of the catalogue file with this digest.
///
/// # Errors
/// `File`, where its head can't be read.
fn head_of<S: Alter>(conn: &mut Connection<S>, digest: &[u8; 32]) -> Result<FileHead, OpenFault>
    ensures reads { OnlyReads (IsOk result) (state S.Store conn.old) (state S.Store conn.new) }
    ensures found { HasCleanDisk (state S.Store conn.new) → IfOk result (λ found. (head : Head)
        (rows : List KeptTurn) → Holds (state S.Store conn.old) head rows
        → (head.format ≡ found.format) × (IsTrue found.is_same ↔ (head.catalogue ≡ digest.now))) }
    ensures why { IfErr result (λ fault. (why : StoreFault) × (fault ≡ OpenFault.File why)
        × IsReadingFault why) }
    ensures told { HasCleanDisk (state S.Store conn.new) → IfErr result (λ fault. (head : Head)
        (rows : List KeptTurn) → Holds (state S.Store conn.old) head rows → (why : StoreFault)
        × (fault ≡ OpenFault.File why)
        × RefusesHead (state S.Store conn.old) (state S.Store conn.new) head why) }
{
    let heading = catalogue(conn)?;
    let is_same = heading.catalogue.as_slice() == digest.as_slice();
    Ok(FileHead {
        format: heading.format,
        is_same,
    })
}

/// The journal whose turns the file holds, to commit to it what more changes.
///
/// # Errors
/// Out of memory.
fn durable<S: Alter + Drop, F: Start>(
    alloc: Global,
    conn: Connection<S>,
    is_new: bool,
    wanted: &Wanted<'_>,
    digest: Option<[u8; 32]>,
    journal: Journal,
) -> Result<DurableJournal<JournalFile<S, F>>, AllocError>
    requires begun { HasCleanDisk (state S.Store conn) → IsTrue is_new → (journal.turns ≡ [])
        × ((head : Head) × Holds (state S.Store conn) head []
        × IfSome digest (λ told. head.catalogue ≡ told)) }
    requires found { AreFound (image_at F.Start) is_new wanted.now (state S.Store conn) journal.contents
        journal.turns }
    requires told { is_new ≡ false → digest ≡ Some wanted.now.digest.now }
    requires change { changing (facts journal) journal.turns ≡ journal.turns }
    ensures book { IfOk result (λ kept. (kept.contents ≡ journal.contents) × (kept.turns ≡ journal.turns)) }
    ensures file { IfOk result (λ kept. (kept.table.conn ≡ conn) × (kept.table.is_new ≡ is_new)) }
    ensures digest { IfOk result (λ kept. kept.table.digest ≡ digest) }
    ensures found { IfOk result (λ kept. AreFound (image_at F.Start) kept.table.is_new wanted.now
        (state S.Store kept.table.conn) kept.contents kept.turns) }
{
    let library = Arc::try_clone(journal.desk().catalogue())?;
    let file = JournalFile::new(alloc, conn, is_new, digest, library);
    Ok(DurableJournal::new(journal, file))
}
