//! The mark in a journal's file: whether a server has it open, or it was ended well.

ghost use Rattle.std.specs.Prelude.{◌≡◌, ◌≤◌, ◌↔◌, List, [], IfErr, IfOk, IsTrue, OnOk, take};
ghost use Rattle.hd_turn_store.specs.Words.{AreClean, HasCleanDisk, HoldsDatabase, Image, IsClean, Trees};
ghost use Rattle.hd_turn_store.specs.Words.{Tells, blamed, doubt, file_state, outcomes, recovers, view};
ghost use Rattle.hd_turn_store.specs.Faults.{IsWritingFault, mark_fault};
ghost use Rattle.hd_turn_store.specs.Holds.{Holds};
ghost use Rattle.hd_turn_store.specs.Kept.{Head, KeptTurn};
ghost use Rattle.hd_turn_store.specs.Marks.{GetsMark, HasMark, HoldsEnded, IsMarked, KeepsTurns, MayGetMark};
ghost use Rattle.hd_turn_store.specs.Marks.{PutsMark, SaysMark, ended_mark, open_mark};
ghost use Rattle.hd_turn_store.specs.Unmarked.{RefusesMark, RefusesTurns};

use crate::fault::Fault;
use crate::store::{release, shows_journal};
use sqlite::{Connection, FileStore, Files};
use sqlite_disk::Disk;
use sqlite_trees::error::StoreError;
use sqlite_trees::store::{Alter, Store};
use std::alloc::Global;

/// The mark of a file that a server has open. Its last turns may lie in the log alone.
const OPEN: u32 = 1;

/// The mark of a file that was ended well. All of it lies in the database file.
const ENDED: u32 = 2;

/// How long SQLite's header is, with which a database file begins.
pub const HEADER_LENGTH: usize = 100;

/// What it begins with.
const MAGIC: [u8; 16] = *b"SQLite format 3\0";

/// Whether a database file with this header was ended well. It then has all of its journal without a log.
pub fn is_ended(head: &[u8; HEADER_LENGTH]) -> bool
    ensures said { IsTrue result ↔ SaysMark head.now ended_mark }
    // The database that such a file holds without a log has the mark, or hasn't.
    ensures tied { (left : Image) (db : Trees) → head.now ≡ take 100 left.db
        → HoldsDatabase (record left { log = [] }) db → IsTrue result ↔ HasMark ended_mark db }
{
    says_end(head)
}

/// Whether a header has the format's name and the mark of an end: its user version, four bytes of which the
/// highest is first.
fn says_end(head: &[u8; HEADER_LENGTH]) -> bool
    ensures { IsTrue result ↔ SaysMark head.now ended_mark }
{
    head[..16] == MAGIC[..] && u32::from_be_bytes([head[60], head[61], head[62], head[63]]) == ENDED
}

/// Commits a mark, where the file hasn't got it yet.
fn commit_mark<D: Disk>(store: &mut FileStore<D>, mark: u32) -> Result<(), StoreError>
    ensures clean { doubt (view store.old).is_clean ≤ doubt (view store.new).is_clean }
    ensures told { IfErr result (Tells (blamed store.new)) }
    ensures ok { IsClean (view store.new) → OnOk result (IsTrue (view store.new).is_open
        → GetsMark mark (view store.old) (view store.new)) }
    ensures crash { (db : Trees) → recovers store.new db → MayGetMark store.old db }
{
    if store.version() == mark {
        return Ok(());
    }
    store.set_version(mark)?;
    store.commit()
}

/// Copies the log into the database file, commits a mark, and copies that. So the database file has no mark
/// of an end before it has all else, and the log has room for the mark where the disk has none.
fn put_mark<D: Disk>(store: &mut FileStore<D>, mark: u32) -> Result<(), StoreError>
    ensures clean { doubt (view store.old).is_clean ≤ doubt (view store.new).is_clean }
    ensures told { IfErr result (Tells (blamed store.new)) }
    ensures ok { IsClean (view store.new) → OnOk result (IsTrue (view store.old).is_open
        × ((view store.old).trees ≡ (view store.old).committed → PutsMark mark store.old store.new)) }
    ensures crash { (db : Trees) → recovers store.new db → MayGetMark store.old db }
{
    store.checkpoint()?;
    commit_mark(store, mark)?;
    store.rollback();
    store.checkpoint()?;
    Ok(())
}

/// The store of a journal's file, with a mark. All that the journal has lies in the database file then, also
/// after a crash, and the log is empty.
///
/// # Errors
/// The mark can't be written, or the tables aren't those of a journal. With the fault comes the store.
fn with_mark<D: Disk + Drop>(
    conn: Connection<FileStore<D>>,
    mark: u32,
) -> Result<FileStore<D>, (Fault, FileStore<D>)>
    ensures marked { IfOk result (λ store. IsClean (view store) → IsMarked conn mark store) }
    ensures fault { IfErr result (λ e. IsWritingFault e.0) }
    ensures why { IfErr result (λ e. RefusesMark conn e.0 e.1) }
    ensures kept { IfOk result (KeepsTurns conn) }
    ensures left { IfErr result (λ e. KeepsTurns conn e.1) }
{
    let is_ours = shows_journal(&conn);
    let mut store = release(conn);
    if !is_ours {
        return Err((Fault::CannotWrite, store));
    }
    match put_mark(&mut store, mark) {
        Ok(()) => Ok(store),
        Err(error) => Err((unmarked(error), store)),
    }
}

/// What is told where a mark can't be written.
fn unmarked(error: StoreError) -> Fault
    ensures value { result ≡ mark_fault error }
    ensures kind { IsWritingFault result }
{
    match error {
        StoreError::OutOfMemory => Fault::Memory,
        StoreError::Full => Fault::DiskFull,
        _ => Fault::CannotWrite,
    }
}

/// Opens a journal's file for turns: the database file says from now on, also after a crash, that its log
/// belongs to it. The journal is as it was.
///
/// # Errors
/// The mark can't be written, or the file can't be read again, or shows no journal. With the fault comes the
/// store, of which a crash leaves all that the journal held.
pub fn open_for_turns<D: Disk + Drop>(
    alloc: Global,
    conn: Connection<FileStore<D>>,
) -> Result<Connection<FileStore<D>>, (Fault, FileStore<D>)>
    ensures clean { IfOk result (λ c. HasCleanDisk (file_state c) → HasCleanDisk (file_state conn)) }
    ensures same { IfOk result (λ c. HasCleanDisk (file_state c) → (head : Head) (ks : List KeptTurn)
        → Holds (file_state conn) head ks → Holds (file_state c) head ks) }
    ensures marked { IfOk result (λ c. HasCleanDisk (file_state c)
        → HasMark open_mark (file_state c).now.trees) }
    ensures why { IfErr result (λ e. RefusesTurns conn e.0 e.1) }
    ensures left { IfErr result (λ e. IsClean (view e.1) → KeepsTurns conn e.1) }
{
    let store = with_mark(conn, OPEN)?;
    let again = match Connection::over(alloc, store) {
        Ok(again) => again,
        Err((error, store)) => return Err((Fault::of_opening(error), store)),
    };
    if !shows_journal(&again) {
        return Err((Fault::Damaged, release(again)));
    }
    Ok(again)
}

/// Ends a journal's file well: the log is copied into the database file, which then says so.
///
/// # Errors
/// The file can't be written. With the fault comes the store, of which a crash leaves all that the journal
/// held.
pub fn end<D: Disk + Drop>(
    conn: Connection<FileStore<D>>,
) -> Result<Files<D>, (Fault, FileStore<D>)>
    // The mark of a server that has it open is away.
    ensures ended { IfOk result (λ files. AreClean D.Disk files.log files.db
        → (head : Head) (ks : List KeptTurn) → Holds (file_state conn) head ks
        → (left : Image) → outcomes D.Disk files.log files.db left → HoldsEnded left head ks) }
    ensures fault { IfErr result (λ e. IsWritingFault e.0) }
    ensures why { IfErr result (λ e. RefusesMark conn e.0 e.1) }
    ensures left { IfErr result (λ e. KeepsTurns conn e.1) }
{
    let store = with_mark(conn, ENDED)?;
    Ok(store.close())
}
