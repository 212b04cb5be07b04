//! What is written of what was asked.
ghost use Rattle.std.specs.Prelude.{◌≡◌};
ghost use Rattle.hd_list_pages.specs.Seeing.{is_missing};
ghost use Rattle.hd_list_pages.specs.Writing.{IsPageWritten};

use crate::pages::write_page;
use hd_catalogue::Catalogue;
use hd_http::{Outcome, ViewFault};
use hd_list_rows::{Page, Row};
use hd_lists::{Listing, Question};
use std::alloc::Allocator;

/// Writes the page that was asked for, but of a command that isn't there.
pub(crate) fn write_shown<A: Allocator + Copy>(
    catalogue: &Catalogue<A>,
    asked: &Question<u32>,
    page: &Page,
    out: &mut Vec<u8>,
) -> Result<Outcome, ViewFault>
    ensures { IsPageWritten catalogue.now asked.now page.now result out.old.items out.new.items }
{
    if is_missing(asked, page.rows()) {
        return Ok(Outcome::Unknown);
    }
    match write_page(catalogue, page, out) {
        Ok(()) => Ok(Outcome::Written),
        Err(_) => Err(ViewFault::Memory),
    }
}

/// Whether it was a command that was asked for, and it isn't there.
fn is_missing(asked: &Question<u32>, rows: &[Row]) -> bool
    ensures { result ≡ is_missing asked.now rows.now }
{
    match asked.list {
        Listing::Command => rows.is_empty(),
        _ => false,
    }
}
