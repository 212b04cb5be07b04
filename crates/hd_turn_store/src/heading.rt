//! Which catalogue a journal is of.

ghost use Rattle.std.specs.Prelude.{◌≡◌, ◌∷◌, [], List, IfOk, IfErr, IsErrOf, IsOk, OnOk};
ghost use Rattle.hd_turn_store.specs.Words.{HasCleanDisk, state};
ghost use Rattle.hd_turn_store.specs.Kept.{KeptTurn, Head, head_cells, IsKnownFormat};
ghost use Rattle.hd_turn_store.specs.Tables.{IsJournal};
ghost use Rattle.hd_turn_store.specs.Holds.{Commits, Holds, OnlyReads};
ghost use Rattle.hd_turn_store.specs.Rows.{read_head};
ghost use Rattle.hd_turn_store.specs.Faults.{IsReadingFault, IsUnread, IsWritingFault, RefusesDigest};
ghost use Rattle.hd_turn_store.specs.Faults.{RefusesFormat, RefusesHead};

use crate::columns::{SELECT_HEAD, UPDATE_HEAD};
use crate::fault::Fault;
use crate::row::value;
use crate::table::is_journal;
use sqlite::types::{ToSql, ValueRef};
use sqlite::{Alter, Connection, Row};

/// The format that is written.
pub const FORMAT: u32 = 2;

/// The one before, which is read.
const OLD_FORMAT: u32 = 1;

/// Which catalogue a journal is of, and how it is written.
#[derive(Debug, Drop)]
pub struct Heading {
    /// The format: 2, or 1 of a journal that was begun with an earlier program.
    pub format: u32,
    /// The digest of the catalogue file: SHA-256, 32 bytes.
    pub catalogue: Vec<u8>,
}

/// The head that the only row shows.
fn head_among(rows: &[Row]) -> Result<Heading, Fault>
    ensures head { IfOk result (λ h. (head : Head) → rows.now ≡ head_cells head ∷ [] → read_head h ≡ head) }
    ensures fault { IfErr result IsReadingFault }
    ensures why { IfErr result (λ fault. (head : Head) → rows.now ≡ head_cells head ∷ []
        → IsUnread head fault) }
{
    let [row] = rows else {
        return Err(Fault::Damaged);
    };
    Ok(Heading {
        format: value(row, 0)?,
        catalogue: value(row, 1)?,
    })
}

/// The format of the journal, and the digest of its catalogue file.
pub fn catalogue<S: Alter>(conn: &mut Connection<S>) -> Result<Heading, Fault>
    ensures reads { OnlyReads (IsOk result) (state S.Store conn.old) (state S.Store conn.new) }
    ensures ok { HasCleanDisk (state S.Store conn.new) → IfOk result (λ h. (head : Head) (ks : List KeptTurn)
        → Holds (state S.Store conn.old) head ks → read_head h ≡ head) }
    ensures fault { IfErr result IsReadingFault }
    ensures why { HasCleanDisk (state S.Store conn.new) → IfErr result (λ fault. (head : Head)
        (ks : List KeptTurn) → Holds (state S.Store conn.old) head ks
        → RefusesHead (state S.Store conn.old) (state S.Store conn.new) head fault) }
{
    match conn.query_all(SELECT_HEAD, &[0u32.to_sql(), 1u32.to_sql()]) {
        Ok(rows) => head_among(rows.as_slice()),
        Err(error) => Err(Fault::of_reading(error)),
    }
}

/// Commits the digest of another catalogue file, that the turns are to be read by from now on.
pub fn accept<S: Alter>(conn: &mut Connection<S>, digest: &[u8; 32]) -> Result<(), Fault>
    ensures clean { HasCleanDisk (state S.Store conn.new) → HasCleanDisk (state S.Store conn.old) }
    ensures redates { HasCleanDisk (state S.Store conn.new) → (head : Head) (ks : List KeptTurn)
        → Holds (state S.Store conn.old) head ks
        → Commits (IsOk result) (record head { catalogue = digest.now }) ks (state S.Store conn.old)
        (state S.Store conn.new) }
    ensures fault { IfErr result IsWritingFault }
    ensures told { HasCleanDisk (state S.Store conn.new) → IfErr result (RefusesDigest
        (state S.Store conn.old) (state S.Store conn.new) digest.now) }
{
    match conn.execute(UPDATE_HEAD, &[ValueRef::Blob(digest)]) {
        Ok(_) => Ok(()),
        Err(error) => Err(Fault::of_writing(error)),
    }
}

/// Whether a journal can be read: its tables are those of a journal, and its format is known. What the files
/// hold stays.
pub(crate) fn check<S: Alter>(conn: &mut Connection<S>) -> Result<(), Fault>
    ensures reads { OnlyReads (IsOk result) (state S.Store conn.old) (state S.Store conn.new) }
    ensures schema { OnOk result (IsJournal (state S.Store conn.old).now.schema) }
    ensures known { HasCleanDisk (state S.Store conn.new) → OnOk result ((head : Head) (ks : List KeptTurn)
        → Holds (state S.Store conn.old) head ks → IsKnownFormat head.format) }
    ensures other { ¬ IsJournal (state S.Store conn.old).now.schema → IsErrOf result Fault.NotAJournal }
    ensures fault { HasCleanDisk (state S.Store conn.new) → IfErr result (λ fault. (head : Head)
        (ks : List KeptTurn) → Holds (state S.Store conn.old) head ks
        → RefusesFormat (state S.Store conn.old) (state S.Store conn.new) head fault) }
{
    if !is_journal(conn.schema()) {
        return Err(Fault::NotAJournal);
    }
    check_format(&catalogue(conn)?)
}

/// Whether the format of a journal's head is known.
fn check_format(heading: &Heading) -> Result<(), Fault>
    ensures known { OnOk result (IsKnownFormat heading.now.format) }
    ensures fault { IfErr result (λ fault. (fault ≡ Fault.UnknownFormat heading.now.format)
        × ¬ IsKnownFormat heading.now.format) }
{
    if heading.format == FORMAT || heading.format == OLD_FORMAT {
        Ok(())
    } else {
        Err(Fault::UnknownFormat(heading.format))
    }
}
