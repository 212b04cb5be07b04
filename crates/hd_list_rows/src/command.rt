//! A command.
ghost use Rattle.std.specs.Prelude.{◌≡◌, ◌+◌, ◌*◌, ◌≤◌, ◌++◌, None, Option, length};
ghost use Rattle.hd_rules.specs.Record.{Record};
ghost use Rattle.hd_journal.specs.Books.{facts, state};
ghost use Rattle.hd_journal.specs.Working.{IsDependenceWork};
ghost use Rattle.hd_list_rows.specs.Rows.{change_rows};
ghost use Rattle.hd_list_rows.specs.Shown.{IsCommand};

use crate::page::Page;
use crate::row::Row;
use hd_desk::Meter;
use hd_journal::Journal;
use hd_rules::{Change, commands_keep_desks_sound};
use std::alloc::Allocator;

/// Shows the surviving command of a number: what it asked and was told, the first later one that depends on
/// it, and what it changed. Nothing where no survivor has the number. The work of the search is counted.
pub(crate) fn show_command<A: Allocator + Copy>(
    journal: &Journal<A>,
    number: u64,
    meter: &mut Meter,
    page: &mut Page,
)
    ensures rows { (found : Option Record)
        × IsCommand (facts journal.now) (state journal.now).survivors number found page.new.rows }
    ensures next { page.new.next ≡ None }
    ensures work { IsDependenceWork (facts journal.now) (state journal.now).survivors number
        meter.old meter.new }
{
    commands_keep_desks_sound();
    page.clear();
    let Some(record) = journal.record(number) else {
        return;
    };
    let dependent = journal.first_dependent(number, meter);
    page.put(&Row::Command {
        survivor: record.survivor,
        reply: record.reply,
        dependent,
    });
    list_changes(record.changes, page);
}

/// Lists each changed cell as it was before and afterwards.
fn list_changes(changes: &[Change], page: &mut Page)
    requires { length page.old.rows + 2 * length changes.now ≤ 512 }
    ensures { page.new ≡ record page.old { rows = page.old.rows ++ change_rows changes.now } }
{
    for change in changes {
        page.put(&Row::Before {
            cell: change.cell,
            value: change.old,
        });
        page.put(&Row::After {
            cell: change.cell,
            value: change.new,
        });
    }
}
