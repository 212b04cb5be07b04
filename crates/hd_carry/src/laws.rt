//! Laws. Each is the contract of a function without a body; its statement is in `specs/Laws.antt`.

ghost use Rattle.hd_carry.specs.Laws.{NamesKeepToThemselves, ObstaclesAreExact, ObstaclesAreReal};
ghost use Rattle.hd_carry.specs.Laws.{RowsCarryADeskOver, TheNextJournalBegins};

use hd_rules::{known_rows_tell_a_known_desk, rows_tell_a_sound_desk};

/// By names each number of the old catalogue becomes at most one of the new one, and no two become one.
pub fn names_keep_to_themselves()
    ensures { NamesKeepToThemselves }
{}

/// Where nothing is in the way, the rows of a sound desk carry it over: each is allowed, each names things of
/// the new catalogue, and they lead to the old desk, by names.
pub fn rows_carry_a_desk_over()
    ensures { RowsCarryADeskOver }
{}

/// Where anything is in the way, but that the numbers are used up, there is no desk to which the old one
/// could be carried over.
pub fn obstacles_are_real()
    ensures { ObstaclesAreReal }
{}

/// Exactly what is in the way is reported: what the old desk needs, and the new catalogue lacks.
pub fn obstacles_are_exact()
    ensures { ObstaclesAreExact }
{}

/// With the rows that carry a desk over, and the last number given so far, the new catalogue's journal may
/// begin, and it begins with that desk, by names.
pub fn the_next_journal_begins()
    ensures { TheNextJournalBegins }
{
    rows_tell_a_sound_desk();
    known_rows_tell_a_known_desk();
}
