//! A journal in a file.

ghost use Rattle.std.specs.Prelude.{◌≡◌, [], codes, false, true, List, IfErr, IfOk, IfSome, IsErrAnd, IsTrue};
ghost use Rattle.std.specs.Prelude.{IsOkAnd, MatchResult, None, Ok};
ghost use Rattle.sqlite.specs.Files.{FailsToOpenFiles, IsCleanLeft, LeavesFiles};
ghost use Rattle.sqlite.specs.WalFiles.{image_at};
ghost use Rattle.sqlite_store.specs.FileStore.{state as store_state};
ghost use Rattle.hd_turn_store.specs.Words.{HasCleanDisk, Image, IsBlankAs, IsClean, file_state, state};
ghost use Rattle.hd_turn_store.specs.Words.{over_files, view};
ghost use Rattle.hd_turn_store.specs.Kept.{KeptTurn, Head, IsKnownFormat, new_head};
ghost use Rattle.hd_turn_store.specs.Tables.{IsJournal, no_schema};
ghost use Rattle.hd_turn_store.specs.Holds.{BeginsOrReads, Holds, OnlyReads};
ghost use Rattle.hd_turn_store.specs.Crashes.{FindsJournal, HoldsTurns};
ghost use Rattle.hd_turn_store.specs.Faults.{IsUnopened, RefusesConnection, RefusesDatabase};
ghost use Rattle.hd_turn_store.specs.Faults.{opening_fault};

use crate::fault::Fault;
use crate::file_database::FileDatabase;
use crate::heading::check;
use crate::store::release;
use crate::storing::begin;
use crate::table::is_blank;
use sqlite::{
    Alter, Connection, Error as SqlError, ErrorCode, FileFrom, FileStore, Leftover, Start,
};
use sqlite_disk::Disk;
use std::marker::PhantomData;

/// Lets a journal go, with what is in the log left there. Whatever a crash leaves of the files, then or
/// before, holds the journal's head and just its turns.
pub fn leave<D: Disk + Drop>(conn: Connection<FileStore<D>>) -> FileStore<D>
    ensures { IsClean (view result) → (head : Head) (ks : List KeptTurn) → Holds (file_state conn) head ks
        → (left : Image) → (store_state result).may_leave left → HoldsTurns left head ks }
{
    release(conn)
}

/// What SQLite answers as the files at a path are opened: their database, or why not, with what is left of
/// files that it had opened.
pub type OpenResult<S> = Result<
    FileDatabase<FileStore<FileFrom<S>>, S>,
    (SqlError, Option<Leftover<FileFrom<S>>>),
>;

/// Opens the database in the files at a path: where there are none, an empty one.
///
/// # Errors
/// SQLite's own. Of files that it had opened it tells what is wrong with them, and they keep what they held.
pub fn connect<S: Start>(rt: &HostRuntime, path: &str, start: S) -> OpenResult<S>
    // Of the path no clause says more: what its files hold is `S`.
    ensures memory { path.now ≡ codes ":memory:"
        → IsErrAnd result (λ e. e.0 ≡ SqlError.SqliteFailure ErrorCode.CannotOpen) }
    ensures found { IfOk result (λ d. FindsJournal (image_at S.Start) (file_state d.conn)) }
    // The pages of a new file have sums, by which the next open tells what somebody else changed.
    ensures sums { IfOk result (λ d. HasCleanDisk (file_state d.conn) → IsBlankAs true (image_at S.Start)
        → (view d.conn.store).has_sums ≡ true) }
    ensures unopened { IfErr result (λ e. e.1 ≡ None → IsUnopened e.0) }
    ensures why { IfErr result (λ e. IfSome e.1 (λ left. (files : _)
        × (IsCleanLeft left → FailsToOpenFiles files left e.0 × LeavesFiles files left))) }
{
    match Connection::open_from(rt, path, true, start) {
        Ok(conn) => Ok(FileDatabase {
            conn,
            start: PhantomData,
        }),
        Err((error, left)) => Err((error, left)),
    }
}

/// Begins a journal in a database without a table, and sees of another whether it is one that can be read.
/// Says whether it was begun. What a journal's files hold stays, whatever this answers.
fn begin_or_check<S: Alter>(conn: &mut Connection<S>, digest: &[u8; 32]) -> Result<bool, Fault>
    ensures reads { OnlyReads (result ≡ Ok false) (state S.Store conn.old) (state S.Store conn.new) }
    ensures begun { HasCleanDisk (state S.Store conn.new) → IfOk result (λ is_new. IsTrue is_new
        → Holds (state S.Store conn.new) (new_head digest.now) []) }
    ensures blank { IfOk result (λ is_new. IsTrue is_new → (state S.Store conn.old).now.schema ≡ no_schema) }
    ensures journal { IfOk result (λ is_new. is_new ≡ false → IsJournal (state S.Store conn.old).now.schema) }
    ensures known { HasCleanDisk (state S.Store conn.new) → IfOk result (λ is_new. is_new ≡ false
        → (head : Head) (ks : List KeptTurn) → Holds (state S.Store conn.old) head ks
        → IsKnownFormat head.format) }
    ensures why { IfErr result (RefusesDatabase (state S.Store conn.old) (state S.Store conn.new)) }
{
    if is_blank(conn.schema()) {
        return begin(conn, digest).map(|()| true);
    }
    check(conn).map(|()| false)
}

/// The connection with whether a journal was begun over it, where there is one now that can be read.
fn readable<S: Alter + Drop>(
    conn: Connection<S>,
    digest: &[u8; 32],
) -> Result<(Connection<S>, bool), Fault>
    ensures ok { IfOk result (λ r. BeginsOrReads digest.now r.1 (state S.Store conn) (state S.Store r.0)) }
    ensures why { IfErr result (RefusesConnection S.Store conn) }
{
    let mut conn = conn;
    let is_new = begin_or_check(&mut conn, digest)?;
    Ok((conn, is_new))
}

/// The journal in files that were opened, also one that a crash ended: it has the head and the turns that the
/// files hold, in a known format. Where there is no file, an empty one, or one that a crash left before its
/// tables were made, it is begun; with the connection comes whether it was. A file with other tables is
/// `NotAJournal`. `connected` is what `connect` answered.
///
/// # Errors
/// What SQLite answered where the files can't be opened (*opening_fault*), or why their database is refused
/// (*RefusesConnection*).
pub fn open<S: Start>(
    connected: OpenResult<S>,
    digest: &[u8; 32],
) -> Result<(Connection<FileStore<FileFrom<S>>>, bool), Fault>
    ensures read { IfOk result (λ r. IsOkAnd connected (λ d. BeginsOrReads digest.now r.1
        (file_state d.conn) (file_state r.0))) }
    ensures begun { IfOk result (λ r. HasCleanDisk (file_state r.0) → IsTrue r.1 → Holds (file_state r.0)
        (new_head digest.now) []) }
    // It is begun only where the files held no journal.
    ensures new { IfOk result (λ r. HasCleanDisk (file_state r.0) → IsTrue r.1 → (head : Head)
        (ks : List KeptTurn) → ¬ HoldsTurns (image_at S.Start) head ks) }
    ensures restored { IfOk result (λ r. HasCleanDisk (file_state r.0) → r.1 ≡ false → (head : Head)
        (ks : List KeptTurn) → HoldsTurns (image_at S.Start) head ks → Holds (file_state r.0) head ks) }
    ensures known { IfOk result (λ r. HasCleanDisk (file_state r.0) → r.1 ≡ false → (head : Head)
        (ks : List KeptTurn) → HoldsTurns (image_at S.Start) head ks → IsKnownFormat head.format) }
    ensures why { IfErr result (λ fault. MatchResult connected
        (λ d. RefusesConnection over_files d.conn fault) (λ e. fault ≡ opening_fault e.0)) }
{
    match connected {
        Ok(found) => readable(found.conn, digest),
        Err((error, _)) => Err(Fault::of_opening(error)),
    }
}
