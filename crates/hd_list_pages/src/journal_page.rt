//! A page of a journal that no hall has.
ghost use Rattle.std.specs.Prelude.{◌≡◌};
ghost use Rattle.hd_http.specs.Sights.{Writes};
ghost use Rattle.hd_lists.specs.Questions.{map_question};
ghost use Rattle.hd_list_pages.specs.Seeing.{Shows};

use crate::looking_up::{LookedUp, look_up};
use crate::seeing::write_shown;
use hd_desk::Meter;
use hd_http::{Outcome, ViewFault};
use hd_journal::{Journal, Look};
use hd_list_rows::PageReader;
use hd_lists::Question;
use std::alloc::Allocator;

/// Writes the rows of what is asked of a journal, as a JSON array: as a view of a hall writes them of its
/// journal.
///
/// # Errors
/// Out of memory. What `out` has then isn't said.
pub fn write_page_of<A: Allocator + Copy>(
    host: &HostRuntime,
    journal: &Journal<A>,
    question: &Question<&[u8]>,
    out: &mut Vec<u8>,
) -> Result<Outcome, ViewFault>
    ensures { Writes (Shows journal.now.contents (λ book. book ≡ journal.now) ⊥
        (map_question (λ n. n.now) question.now)) result out.old.items out.new.items }
{
    let catalogue = journal.desk().catalogue();
    match look_up(catalogue, question) {
        LookedUp::Known(asked) => {
            let Ok(mut reader) = PageReader::new(host.alloc(), asked, Meter::new(host)) else {
                return Err(ViewFault::Memory);
            };
            reader.look(journal);
            write_shown(catalogue, &asked, &reader.page, out)
        }
        LookedUp::NoName => Ok(Outcome::Unknown),
        LookedUp::NoDay => Ok(Outcome::Refused),
    }
}
