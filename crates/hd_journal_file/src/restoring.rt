//! A journal from the rows of its file.

ghost use Rattle.std.specs.Prelude.{◌≡◌, ◌+◌, ◌≤◌, [], List, IfErr, IfOk, IsOk, OnOk, drop, length, take};
ghost use Rattle.sqlite.specs.State.{HasCleanDisk};
ghost use Rattle.sqlite.specs.Held.{state};
ghost use Rattle.hd_journal.specs.Books.{IsLegalBook};
ghost use Rattle.hd_turn_row.specs.Rows.{AreTurnRows};
ghost use Rattle.hd_turn_store.specs.Holds.{Holds, OnlyReads};
ghost use Rattle.hd_turn_store.specs.Kept.{Head, KeptTurn, piece};
ghost use Rattle.hd_turn_store.specs.Rows.{kept};
ghost use Rattle.hd_journal_file.specs.Restored.{HasTaken, HearsUpTo, RefusesRow, RefusesRows};
ghost use Rattle.hd_journal_file.specs.Restored.{TakesRow, TakesRows};

use crate::fault::RestoreFault;
use crate::progress::Progress;
use crate::reading::{compare, own_ask};
use hd_durable::a_turn_more_is_kept_where_it_changes;
use hd_journal::Journal;
use hd_turn_store::{Alter, Connection, TurnRow, turns};
use std::alloc::{Allocator, Global};

/// Takes the turn of a row again. `at` is the row's number, and `format` the file's.
///
/// # Errors
/// `NoTurn`, `NoChange`, `Differs` and `Memory`.
fn take_turn<A: Allocator + Copy>(
    journal: &mut Journal<A>,
    alloc: A,
    memory: Global,
    row: &TurnRow<'_>,
    at: u32,
    format: u32,
) -> Result<(), RestoreFault>
    ensures took { OnOk result (TakesRow format journal.old journal.new (kept row.now)) }
    ensures why { IfErr result (RefusesRow format journal.old (kept row.now) at) }
{
    let own = own_ask(journal, alloc, row, at)?;
    let new = match journal.take_new(own) {
        Ok(new) => new,
        Err(_) => return Err(RestoreFault::Memory),
    };
    if !new.is_changing {
        return Err(RestoreFault::NoChange { at });
    }
    compare(memory, &new.made.reply, row, at, format)
}

/// Takes the next rows of a file again, at most 1,024 of them, and returns the number of the last: `after`
/// where there is none after it.
///
/// # Errors
/// As `take_turn`, or `Unread` and `TooMany`.
fn take_piece<S: Alter, A: Allocator + Copy>(
    conn: &mut Connection<S>,
    memory: Global,
    journal: &mut Journal<A>,
    alloc: A,
    after: u32,
    format: u32,
) -> Result<u32, RestoreFault>
    ensures reads { OnlyReads (IsOk result) (state S.Store conn.old) (state S.Store conn.new) }
    ensures took { OnOk result ((rows : List KeptTurn) × TakesRows format journal.old journal.new rows) }
    ensures rows { HasCleanDisk (state S.Store conn.new) → IfOk result (λ last. (head : Head)
        (rows : List KeptTurn) → Holds (state S.Store conn.old) head rows
        → (last ≡ after + length (take piece (drop after rows)))
        × TakesRows format journal.old journal.new (take piece (drop after rows))) }
    ensures more { IfOk result (λ last. after ≤ last) }
    ensures count { IfOk result (λ last. last + length journal.old.turns ≡ after + length journal.new.turns) }
    ensures why { HasCleanDisk (state S.Store conn.new) → IfErr result (λ fault. (head : Head)
        (rows : List KeptTurn) → Holds (state S.Store conn.old) head rows
        → RefusesRows format journal.old (take piece (drop after rows)) after fault) }
{
    a_turn_more_is_kept_where_it_changes();
    let rows = match turns(conn, after) {
        Ok(rows) => rows,
        Err(fault) => return Err(RestoreFault::Unread(fault)),
    };
    let mut at = after;
    for values in &rows {
        let Some(next) = at.checked_add(1) else {
            return Err(RestoreFault::TooMany);
        };
        let row = match TurnRow::of(values) {
            Ok(row) => row,
            Err(fault) => return Err(RestoreFault::Unread(fault)),
        };
        take_turn(journal, alloc, memory, &row, next, format)?;
        at = next;
    }
    Ok(at)
}

/// Takes all turns of a file again, in a journal that has none yet, of the catalogue whose names they have,
/// and returns how many there are. Each row is then that of a turn, which is changing and has the outcome
/// that the row says; `format` is the file's. After each piece of at most 1,024 rows `progress` gets the
/// number of the rows taken so far.
///
/// # Errors
/// `NoTurn`, `NoChange` or `Differs` of the first row that isn't such; `Unread`, `TooMany` and `Memory`. The
/// journal is to be dropped then; the file is as it was.
pub fn restore_turns<S: Alter, A: Allocator + Copy, P: Progress>(
    conn: &mut Connection<S>,
    format: u32,
    memory: Global,
    journal: &mut Journal<A>,
    alloc: A,
    progress: &mut P,
) -> Result<usize, RestoreFault>
    requires { journal.old.turns ≡ [] }
    ensures reads { OnlyReads (IsOk result) (state S.Store conn.old) (state S.Store conn.new) }
    ensures rows { HasCleanDisk (state S.Store conn.new) → OnOk result ((head : Head) (rows : List KeptTurn)
        → Holds (state S.Store conn.old) head rows
        → AreTurnRows journal.new.contents format journal.new.turns rows) }
    ensures number { IfOk result (λ number. number ≡ length journal.new.turns) }
    ensures taken { OnOk result (HasTaken journal.old journal.new) }
    ensures legal { OnOk result (IsLegalBook journal.new.contents journal.new.turns) }
    ensures told { IfOk result (λ number. HearsUpTo P.hears number progress.old progress.new) }
    ensures why { HasCleanDisk (state S.Store conn.new) → IfErr result (λ fault. (head : Head)
        (rows : List KeptTurn) → Holds (state S.Store conn.old) head rows
        → RefusesRows format journal.old rows 0 fault) }
{
    let mut at = 0;
    for _piece in 0..u32::MAX {
        let last = take_piece(conn, memory, journal, alloc, at, format)?;
        if last == at {
            return Ok(journal.front());
        }
        at = last;
        progress.taken(at);
    }
    Err(RestoreFault::TooMany)
}
