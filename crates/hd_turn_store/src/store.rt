//! What a connection to files shows, and the store that it leaves.

ghost use Rattle.std.specs.Prelude.{◌↔◌, IsTrue};
ghost use Rattle.sqlite.specs.Files.{over_files};
ghost use Rattle.hd_turn_store.specs.Words.{IsLive, file_state};
ghost use Rattle.hd_turn_store.specs.Marks.{IsReleased};
ghost use Rattle.hd_turn_store.specs.Tables.{IsJournal};

use crate::table::is_journal;
use sqlite::{Alter, Connection, FileStore};
use sqlite_disk::Disk;

/// Whether a connection to files shows the tables of a journal.
pub(crate) fn shows_journal<D: Disk>(conn: &Connection<FileStore<D>>) -> bool
    ensures shown { IsTrue result ↔ IsJournal (file_state conn.now).now.schema }
    ensures live { IsLive (file_state conn.now) }
{
    is_journal(conn.schema())
}

/// The store of files that a connection leaves, with what is committed alone.
pub(crate) fn release<D: Disk + Drop>(conn: Connection<FileStore<D>>) -> FileStore<D>
    ensures { IsReleased over_files conn.store result }
{
    rolled_back(conn)
}

/// The same of a store of any kind, so that one fact is proved of a store of files, and not each of SQLite's.
fn rolled_back<S: Alter + Drop>(conn: Connection<S>) -> S
    ensures { IsReleased S.Store conn.store result }
{
    conn.into_store()
}
