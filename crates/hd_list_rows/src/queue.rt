//! A title's queue.
ghost use Rattle.std.specs.Prelude.{◌≡◌, ◌<◌, ◌≤◌, ◌-◌, ◌++◌, List, length, take, drop};
ghost use Rattle.hd_rules.specs.declared.holds.Hold.{Hold};
ghost use Rattle.hd_desk.specs.Asking.{IsQueueOf};
ghost use Rattle.hd_desk.specs.Desks.{desk_of, facts};
ghost use Rattle.hd_list_rows.specs.Pages.{page_behind};
ghost use Rattle.hd_list_rows.specs.Rows.{hold_row, queue_rows};

use crate::page::Page;
use crate::row::Row;
use hd_desk::{Answer, Desk, Question};
use hd_queue::HoldSlices;
use hd_rules::{Hold, TitleNo};
use std::alloc::Allocator;

/// Shows the holds of a title, by rising stamp, behind so many.
pub(crate) fn show_queue<A: Allocator + Copy>(
    desk: &Desk<A>,
    title: TitleNo,
    after: u32,
    page: &mut Page,
)
    requires { title < (facts desk.now).titles }
    ensures { (holds : List Hold) × IsQueueOf (facts desk.now) (desk_of desk.now) title holds
        × (page.new ≡ page_behind after (queue_rows (facts desk.now) (desk_of desk.now) title holds)) }
{
    page.clear();
    list_holds(desk, title, desk.queue(title).holds(), after, page);
    page.end_behind(after);
}

/// Lists holds of a title behind so many, as many as there is room for.
fn list_holds<A: Allocator + Copy>(
    desk: &Desk<A>,
    title: TitleNo,
    holds: HoldSlices<'_, A>,
    after: u32,
    page: &mut Page,
)
    requires { title < (facts desk.now).titles }
    ensures { let rows = queue_rows (facts desk.now) (desk_of desk.now) title holds.entry in
        let room = 512 - length page.old.rows in
        page.new ≡ record page.old { rows = page.old.rows ++ take room (drop after rows) } }
{
    let mut others = after;
    for hold in holds {
        if others > 0 {
            others -= 1;
        } else if page.is_full() {
            return;
        } else {
            page.put(&hold_row(desk, title, hold));
        }
    }
}

/// A hold of a title, with its position in the title's queue.
pub(crate) fn hold_row<A: Allocator + Copy>(desk: &Desk<A>, title: TitleNo, hold: &Hold) -> Row
    requires { title < (facts desk.now).titles }
    ensures { result ≡ hold_row (facts desk.now) (desk_of desk.now) title hold.now }
{
    match desk.answer(&Question::Position(title, hold.stamp)) {
        Answer::Position(position) => Row::Hold {
            title,
            position,
            hold: *hold,
        },
        _ => unreachable!(),
    }
}
