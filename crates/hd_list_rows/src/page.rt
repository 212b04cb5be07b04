//! Pages.
ghost use Rattle.std.specs.Prelude.{◌≡◌, ◌+◌, ◌<◌, ◌≤◌, ◌==◌, ◌∷◌, ◌++◌, [], Some, IfOk, if◌then◌else◌};
ghost use Rattle.std.specs.Prelude.{length, vec_capacity, vec_len};
ghost use Rattle.hd_list_rows.specs.PageValue.{no_page};

use crate::row::Row;
use std::alloc::{AllocError, Global};
use std::marker::Model;

/// How many rows a page has at most.
pub const MOST_ROWS: usize = 512;

/// A page of rows, with room for all that it can have. Only `new` takes memory.
#[derive(Drop)]
pub struct Page {
    rows: Vec<Row>,
    next: Option<u64>,
}

impl Model for Page {
    ghost use Rattle.std.specs.Prelude.{◌≤◌, length, vec_capacity};
    ghost use Rattle.hd_list_rows.specs.PageValue.{PageValue};

    ghost Value = { PageValue };

    ghost view = { λ p. record { rows = p.rows.items; next = p.next } };

    ghost invariant = { λ p. (length p.rows.items ≤ 512) × (512 ≤ vec_capacity p.rows) };
}

impl Page {
    /// A page without rows.
    pub(crate) fn new(alloc: Global) -> Result<Page, AllocError>
        ensures { IfOk result (λ page. page ≡ no_page) }
    {
        let rows = Vec::with_capacity(alloc, MOST_ROWS)?;
        Ok(Page { rows, next: None })
    }

    /// The rows.
    pub fn rows(&self) -> &[Row]
        ensures rows { result.now ≡ self.now.rows }
        ensures few { length result.now ≤ MOST_ROWS }
    {
        self.rows.as_slice()
    }

    /// Where the next page begins, if there may be another: behind so many entries of the list, from the copy
    /// of this number on, or from a hold on, by its title and patron.
    pub fn next(&self) -> Option<u64>
        ensures { result ≡ self.now.next }
    {
        self.next
    }

    /// Whether there is room for no other row.
    pub(crate) fn is_full(&self) -> bool
        ensures full { result ≡ (length self.now.rows == MOST_ROWS) }
        ensures few { length self.now.rows ≤ MOST_ROWS }
    {
        self.rows.len() == MOST_ROWS
    }

    /// Takes all away.
    pub(crate) fn clear(&mut self)
        ensures { self.new ≡ no_page }
    {
        self.rows.clear();
        self.next = None;
    }

    /// Puts a row behind the others.
    pub(crate) fn put(&mut self, row: &Row)
        requires { length self.old.rows < MOST_ROWS }
        ensures { self.new ≡ record self.old { rows = self.old.rows ++ row.now ∷ [] } }
    {
        push(&mut self.rows, row);
    }

    /// The next page begins there.
    pub(crate) fn go_on(&mut self, next: u64)
        ensures { self.new ≡ record self.old { next = Some next } }
    {
        self.next = Some(next);
    }

    /// The page is of a list behind so many entries: where it is full, another may follow.
    pub(crate) fn end_behind(&mut self, others: u32)
        ensures { self.new ≡ record self.old {
          next = if length self.old.rows == MOST_ROWS then Some (others + MOST_ROWS) else self.old.next;
        } }
    {
        if self.is_full() {
            self.next = Some(u64::from(others) + MOST_ROWS as u64);
        }
    }
}

/// Puts one more behind the others. It takes no memory.
fn push<T: Copy>(rows: &mut Vec<T>, row: &T)
    requires { vec_len rows.old < vec_capacity rows.old }
    ensures items { rows.new.items ≡ rows.old.items ++ row.now ∷ [] }
    ensures capacity { vec_capacity rows.new ≡ vec_capacity rows.old }
{
    rows.push_reserved(*row);
}
