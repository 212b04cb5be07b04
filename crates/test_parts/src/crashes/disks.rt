//! The disks of a file and its log, in memory, and a crash of their machine.
ghost use Rattle.std.specs.Prelude.{IsTrue, IfErr, IfOk};

use hd_turn_store::{Connection, FileStore, Files};
use sqlite::Options;
use sqlite_disk::{Crash, Disk, Fuse, Memory};
use std::alloc::Global;

/// A file and its log.
pub(crate) type Disks = Files<Fuse<Memory>>;

/// A connection to the database in a file and its log.
pub(crate) type OnDisks<D> = Connection<FileStore<D>>;

/// The log is copied into the database file after few commits, so that stops fall there too.
const OPTIONS: Options = Options {
    cache_pages: 64,
    spill_pages: 64,
    checkpoint_frames: 8,
    seed: 1,
};

/// Empty disks that stop after so many calls each.
pub(crate) fn empty(alloc: Global, log_calls: u64, database_calls: u64) -> Disks {
    Files {
        log: Fuse::new(Memory::new(alloc), log_calls),
        db: Fuse::new(Memory::new(alloc), database_calls),
    }
}

/// The machine crashes and comes back: what wasn't synced is lost, and nothing stops the disks.
pub(crate) fn crash(disks: &mut Disks) {
    disks.log.crash();
    disks.db.crash();
}

/// The same database without its log.
pub(crate) fn without_log(alloc: Global, disks: Disks) -> Disks {
    Files {
        log: Fuse::new(Memory::new(alloc), u64::MAX),
        db: disks.db,
    }
}

/// The database file's bytes.
pub(crate) fn database(disks: &Disks) -> &[u8] {
    disks.db.inner().bytes()
}

/// Opens the database in them, in which each page of a new one has a sum, as in a file of the program. Where
/// it can't be opened, the disks come back.
pub(crate) fn open<D: Disk + Drop>(alloc: Global, disks: Files<D>) -> Result<OnDisks<D>, Files<D>> {
    if !disks.may_be_used() {
        return Err(disks);
    }
    match Connection::open_files_with(alloc, disks, OPTIONS, true) {
        Ok(conn) => Ok(conn),
        Err((_, left)) => Err(left.into_files()),
    }
}
