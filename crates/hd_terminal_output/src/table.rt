//! Lists, printed as tables that a person reads.

use crate::fault::ListFault;
use hd_door_client::cell;
use serde_json::Value;
use std::alloc::Global;
use std::io::Write;

/// A list: the headings of its columns, and its cells, line by line.
#[derive(Drop)]
pub(crate) struct Table {
    heads: &'static [&'static str],
    cells: Vec<String>,
}

impl Table {
    /// A list without lines.
    pub(crate) fn new(alloc: Global, heads: &'static [&'static str]) -> Table {
        Table {
            heads,
            cells: Vec::new(alloc),
        }
    }

    /// Adds a line: what a row has under each heading.
    ///
    /// # Errors
    /// Out of memory.
    pub(crate) fn push_row(&mut self, alloc: Global, row: &Value) -> Result<(), ListFault> {
        for head in self.heads {
            self.cells.push(cell(alloc, row, head)?)?;
        }
        Ok(())
    }

    /// Prints the list.
    ///
    /// # Errors
    /// It can't be written; out of memory.
    pub(crate) fn print(&self, rt: &HostRuntime) -> Result<(), ListFault> {
        rt.stdout().write_all(self.text(rt.alloc())?.as_bytes())?;
        Ok(())
    }

    /// The list with a line of headings, in columns.
    fn text(&self, alloc: Global) -> Result<String, ListFault> {
        let widths = self.widths(alloc)?;
        let mut text = String::new(alloc);
        self.push_lines(&mut text, widths.as_slice())?;
        Ok(text)
    }

    /// Adds the line of headings and the lines of cells, in columns that are so wide.
    fn push_lines(&self, text: &mut String, widths: &[usize]) -> Result<(), ListFault> {
        let mut blanks = 0;
        for (head, width) in self.heads.iter().zip(widths) {
            blanks = push_cell(text, blanks, head, *width)?;
        }
        for (at, cell) in self.cells.iter().enumerate() {
            let column = self.column(at);
            if column == 0 {
                text.push('\n')?;
                blanks = 0;
            }
            blanks = push_cell(text, blanks, cell.as_str(), width_of(widths, column))?;
        }
        text.push('\n')?;
        Ok(())
    }

    /// The column of a cell, by the cell's number.
    fn column(&self, at: usize) -> usize {
        at.checked_rem(self.heads.len()).unwrap_or(0)
    }

    /// How wide each column is: as its widest cell.
    fn widths(&self, alloc: Global) -> Result<Vec<usize>, ListFault> {
        let mut widths = Vec::new(alloc);
        for head in self.heads {
            widths.push(head.len())?;
        }
        for (at, cell) in self.cells.iter().enumerate() {
            let column = self.column(at);
            if let Some(width) = widths.get_mut(column) {
                *width = (*width).max(length_of(cell.as_str()));
            }
        }
        Ok(widths)
    }
}

/// The width of a column.
fn width_of(widths: &[usize], column: usize) -> usize {
    match widths.get(column) {
        Some(width) => *width,
        None => 0,
    }
}

/// Adds a cell behind so many blanks, where it isn't empty. How many blanks there are to be before the next.
fn push_cell(
    text: &mut String,
    blanks: usize,
    cell: &str,
    width: usize,
) -> Result<usize, ListFault> {
    let rest = width.saturating_sub(length_of(cell)).saturating_add(2);
    if cell.is_empty() {
        return Ok(blanks.saturating_add(rest));
    }
    for _ in 0..blanks {
        text.push(' ')?;
    }
    text.push_str(cell)?;
    Ok(rest)
}

/// How many characters a cell has.
fn length_of(cell: &str) -> usize {
    cell.chars().count()
}
