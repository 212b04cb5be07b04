//! Lists, asked page by page and printed.

use crate::asking::page_of;
use crate::fault::{ListFault, nothing_of};
use crate::table::Table;
use hd_command_line::ListOrder;
use hd_door_client::Rows;
use hd_lists::{Key, Question};
use std::alloc::Global;
use std::io::Write;

/// The most pages that are asked for.
const MOST_PAGES: u32 = 1_000_000;

/// The most rows of a page.
const MOST_ROWS: u64 = 512;

/// What is asked for lists: a server at its door, or a journal that no server has open.
pub trait Pages {
    /// Why it gives no page.
    type Fault: From<ListFault> + Drop;

    /// The page that is asked for; nothing where there is nothing of the name or number that is asked for, or
    /// no such day.
    ///
    /// # Errors
    /// It can't be asked, or gives no whole answer; out of memory.
    fn page(&self, question: &Question<&[u8]>) -> Result<Option<Rows>, Self::Fault>;

    /// How many turns there are.
    ///
    /// # Errors
    /// It can't be asked; out of memory.
    fn turns(&self) -> Result<u64, Self::Fault>;
}

/// What of a list is there so far: a table, or the text of an array of JSON.
#[derive(Drop)]
struct Shown {
    table: Table,
    text: Vec<u8>,
}

impl Shown {
    /// Adds the rows of a page.
    fn add(&mut self, alloc: Global, rows: &Rows, is_json: bool) -> Result<(), ListFault> {
        if !is_json {
            for row in rows.rows() {
                self.table.push_row(alloc, row)?;
            }
            return Ok(());
        }
        let inside = rows.inside();
        if !inside.is_empty() {
            let between: &[u8] = if self.text.is_empty() { b"[" } else { b",\n" };
            self.text.extend_from_slice(between)?;
            self.text.extend_from_slice(inside)?;
        }
        Ok(())
    }

    /// Prints it.
    fn print(&self, rt: &HostRuntime, is_json: bool) -> Result<(), ListFault> {
        if !is_json {
            return self.table.print(rt);
        }
        let begin: &[u8] = if self.text.is_empty() { b"[" } else { b"" };
        rt.stdout().write_all(begin)?;
        rt.stdout().write_all(self.text.as_slice())?;
        rt.stdout().write_all(b"]\n")?;
        Ok(())
    }
}

/// Which of the rows there are is shown.
#[derive(Clone, Copy)]
struct Range {
    /// After this many.
    after: u64,
    /// So many at most.
    most: u64,
}

/// Prints a list, on as many pages as it takes.
///
/// # Errors
/// Those of its pages; there is nothing of the name; the output can't be written.
pub fn print_list<P: Pages>(
    rt: &HostRuntime,
    pages: &P,
    order: &ListOrder<'_>,
) -> Result<(), P::Fault> {
    let alloc = rt.alloc();
    let range = range_of(pages, order)?;
    let mut shown = Shown {
        table: Table::new(alloc, order.list.row().heads),
        text: Vec::new(alloc),
    };
    add_pages(alloc, pages, order, range, &mut shown)?;
    shown.print(rt, order.is_json)?;
    Ok(())
}

/// Which rows are shown: of turns those that are asked for, or the last ones, and of all else all.
fn range_of<P: Pages>(pages: &P, order: &ListOrder<'_>) -> Result<Range, P::Fault> {
    let Key::Most(most) = order.key else {
        return Ok(Range {
            after: 0,
            most: u64::MAX,
        });
    };
    let after = match order.after {
        Some(after) => after,
        None => pages.turns()?.saturating_sub(most),
    };
    Ok(Range { after, most })
}

/// Adds the pages that have the rows of a range.
fn add_pages<P: Pages>(
    alloc: Global,
    pages: &P,
    order: &ListOrder<'_>,
    range: Range,
    shown: &mut Shown,
) -> Result<(), P::Fault> {
    let Range {
        mut after,
        mut most,
    } = range;
    for _ in 0..MOST_PAGES {
        let question = page_of(order, after, most.min(MOST_ROWS));
        let Some(rows) = pages.page(&question)? else {
            return Err(P::Fault::from(nothing_of(alloc, order)));
        };
        shown.add(alloc, &rows, order.is_json)?;
        most = most.saturating_sub(rows.rows().len() as u64);
        match rows.next() {
            Some(next) if most > 0 => after = next,
            _ => return Ok(()),
        }
    }
    Ok(())
}
