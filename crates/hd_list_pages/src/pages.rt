//! Writing a page as JSON.
ghost use Rattle.std.specs.Prelude.{◌≡◌, OnOk, map};
ghost use Rattle.hd_list_pages.specs.Columns.{columns_of, page_columns};
ghost use Rattle.hd_list_pages.specs.Naming.{is_none};
ghost use Rattle.hd_list_pages.specs.Writing.{WritesMoreObjects, WritesNext, WritesObjects, WritesPage};

use crate::part::{Plain, plain_column};
use crate::words::Heading;
use crate::writing::{write_object, write_row};
use hd_catalogue::Catalogue;
use hd_list_rows::{Page, Row};
use std::alloc::{AllocError, Allocator};

/// Writes a page: its rows by names, and where the next one begins, if there is one.
pub(crate) fn write_page<A: Allocator + Copy>(
    catalogue: &Catalogue<A>,
    page: &Page,
    out: &mut Vec<u8>,
) -> Result<(), AllocError>
    ensures { OnOk result (WritesPage catalogue.now page.now out.old.items out.new.items) }
{
    out.push(b'[')?;
    write_lines(catalogue, page, out)?;
    out.push(b']')?;
    Ok(())
}

/// Writes the rows, and where the next page begins, if there is one.
fn write_lines<A: Allocator + Copy>(
    catalogue: &Catalogue<A>,
    page: &Page,
    out: &mut Vec<u8>,
) -> Result<(), AllocError>
    ensures { OnOk result (WritesObjects catalogue.now (page_columns page.now)
        out.old.items out.new.items) }
{
    let rows = page.rows();
    match page.next() {
        Some(next) => {
            write_rows(catalogue, rows, out)?;
            write_next(catalogue, is_none(rows), next, out)?;
            Ok(())
        }
        None => {
            write_rows(catalogue, rows, out)?;
            Ok(())
        }
    }
}

/// Whether there are none.
fn is_none(rows: &[Row]) -> bool
    ensures { result ≡ is_none rows.now }
{
    rows.is_empty()
}

/// Writes where the next page begins, behind a comma but for the first.
fn write_next<A: Allocator + Copy>(
    catalogue: &Catalogue<A>,
    is_first: bool,
    next: u64,
    out: &mut Vec<u8>,
) -> Result<(), AllocError>
    ensures { OnOk result (WritesNext catalogue.now is_first next out.old.items out.new.items) }
{
    let column = plain_column(Heading::Next, Plain::Number(Some(next)));
    if is_first {
        write_object(catalogue, &[column], out)
    } else {
        out.push(b',')?;
        write_object(catalogue, &[column], out)
    }
}

/// Writes rows, with commas between them.
fn write_rows<A: Allocator + Copy>(
    catalogue: &Catalogue<A>,
    rows: &[Row],
    out: &mut Vec<u8>,
) -> Result<(), AllocError>
    ensures { OnOk result (WritesObjects catalogue.now (map columns_of rows.now)
        out.old.items out.new.items) }
{
    match rows {
        [] => Ok(()),
        [first, rest @ ..] => {
            write_row(catalogue, first, out)?;
            write_more_rows(catalogue, rest, out)?;
            Ok(())
        }
    }
}

/// Writes rows, each behind a comma.
fn write_more_rows<A: Allocator + Copy>(
    catalogue: &Catalogue<A>,
    rows: &[Row],
    out: &mut Vec<u8>,
) -> Result<(), AllocError>
    ensures { OnOk result (WritesMoreObjects catalogue.now (map columns_of rows.now)
        out.old.items out.new.items) }
{
    for row in rows {
        out.push(b',')?;
        write_row(catalogue, row, out)?;
    }
    Ok(())
}
