//! What a file has of a row's turns.
ghost use Rattle.std.specs.Prelude.{◌≡◌, []};

use crate::crashes::disks::open;
use crate::crashes::whole::Whole;
use crate::library::new_journal;
use hd_journal::Journal;
use hd_journal_file::restore_turns;
use hd_turn_store::{Alter, Connection, Files, catalogue, is_blank, leave};
use sqlite_disk::Disk;
use std::alloc::Global;

/// The disks of a file that, behind these changes of SQL, has the first changing turns of a row, with those
/// that were answered. None where it hasn't, or they can't be taken again.
pub(crate) fn is_left<D: Disk + Drop>(
    rt: &HostRuntime,
    whole: &Whole,
    answered: usize,
    disks: Files<D>,
    changes: &[&str],
) -> Option<Files<D>> {
    match open(rt.alloc(), disks) {
        Ok(mut conn) => {
            let is_left = is_in(rt, whole, answered, &mut conn, changes);
            let disks = leave(conn).close();
            if is_left { Some(disks) } else { None }
        }
        Err(_) => None,
    }
}

/// The same of a database that is open, and stays so.
fn is_in<S: Alter>(
    rt: &HostRuntime,
    whole: &Whole,
    answered: usize,
    conn: &mut Connection<S>,
    changes: &[&str],
) -> bool {
    let mut is_changed = true;
    for change in changes {
        is_changed = is_changed && conn.execute(change, &[]).is_ok();
    }
    match new_journal(rt) {
        Some(mut journal) => {
            is_changed
                && is_taken_again(rt.alloc(), conn, &mut journal)
                && journal.front() >= whole.changing_in(answered)
                && whole.begins_with(&journal)
        }
        None => false,
    }
}

/// Whether a journal takes the turns in a file again. Where none was begun in it there are none.
fn is_taken_again<S: Alter>(alloc: Global, conn: &mut Connection<S>, journal: &mut Journal) -> bool
    requires { journal.old.turns ≡ [] }
{
    if is_blank(conn.schema()) {
        return true;
    }
    match catalogue(conn) {
        Ok(heading) => {
            restore_turns(conn, heading.format, alloc, journal, alloc, &mut ()).is_ok()
        }
        Err(_) => false,
    }
}
