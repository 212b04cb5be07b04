//! A patron's loans and holds.
ghost use Rattle.std.specs.Prelude.{◌≡◌, ◌<◌, ℕ, All, ◌++◌, ◌∷◌, List, filter_map, map};
ghost use Rattle.hd_holds.specs.declared.held_title.HeldTitle.{HeldTitle};
ghost use Rattle.hd_desk.specs.Desks.{desk_of, facts};
ghost use Rattle.hd_list_rows.specs.declared.row.Row.{Row};
ghost use Rattle.hd_list_rows.specs.Pages.{page_behind};
ghost use Rattle.hd_list_rows.specs.Making.{held_row, with_rest};
ghost use Rattle.hd_list_rows.specs.Rows.{copy_row, patron_rows};

use crate::page::Page;
use crate::queue::hold_row;
use crate::row::Row;
use hd_desk::{Desk, HeldTitle, LentCopies};
use hd_patron_view::{held, lent};
use hd_rules::PatronNo;
use std::alloc::Allocator;

/// Shows a patron's loans, and behind them their holds, behind so many.
pub(crate) fn show_patron<A: Allocator + Copy>(
    desk: &Desk<A>,
    patron: PatronNo,
    after: u32,
    page: &mut Page,
)
    ensures { page.new ≡ page_behind after (patron_rows (facts desk.now) (desk_of desk.now) patron) }
{
    page.clear();
    let mut others = after;
    list_loans(desk, lent(desk, patron), &mut others, page);
    list_holds(desk, patron, held(desk, patron), &mut others, page);
    page.end_behind(after);
}

/// Lists copies on loan, behind so many others.
fn list_loans<A: Allocator + Copy>(
    desk: &Desk<A>,
    copies: LentCopies<'_, A>,
    others: &mut u32,
    page: &mut Page,
)
    requires { All (λ (copy : ℕ). copy < (facts desk.now).copies) copies }
    ensures { (rest : List Row) → with_rest page.new others.new rest
        ≡ with_rest page.old others.old (map (copy_row (desk_of desk.now)) copies.entry ++ rest) }
{
    for copy in copies {
        let state = desk.copy(copy);
        take(&Row::Copy { copy, state }, others, page);
    }
}

/// Lists the patron's holds of these titles, behind so many others.
fn list_holds<A: Allocator + Copy>(
    desk: &Desk<A>,
    patron: PatronNo,
    held: &[HeldTitle],
    others: &mut u32,
    page: &mut Page,
)
    requires { All (λ (held : HeldTitle). held.title < (facts desk.now).titles) held.now }
    ensures { (rest : List Row) → with_rest page.new others.new rest
        ≡ with_rest page.old others.old
        (filter_map (held_row (facts desk.now) (desk_of desk.now) patron) held.now ++ rest) }
{
    for of in held {
        if let Some(hold) = desk.hold(of.title, patron) {
            take(&hold_row(desk, of.title, &hold), others, page);
        }
    }
}

/// Takes the next row of the list: it is passed over, or put where there is room.
fn take(row: &Row, others: &mut u32, page: &mut Page)
    ensures { (rest : List Row) → with_rest page.new others.new rest
        ≡ with_rest page.old others.old (row.now ∷ rest) }
{
    if *others > 0 {
        *others -= 1;
    } else if !page.is_full() {
        page.put(row);
    }
}
