//! What `journal show` lists.

use crate::fault::JournalCommandFault;
use hd_command_line::JournalShow;
use hd_door_client::Rows;
use hd_folder::Paths;
use hd_journal::Journal;
use hd_library_journal::{Keeping, end_journal, open_kept};
use hd_list_pages::{Outcome, write_page_of};
use hd_lists::Question;
use hd_terminal_output::{Pages, print_list};
use hd_turn_store::Unknown;

/// Shows what is where by the file of a journal, each turn of it taken again and compared.
///
/// # Errors
/// There is none, or it is refused; nothing has the name; the output can't be written; out of memory.
pub fn show_journal(rt: &HostRuntime, order: &JournalShow<'_>) -> Result<(), JournalCommandFault> {
    let paths = Paths::of(rt, &order.library)?;
    let kept = open_kept(rt, Unknown, &Keeping::of(&paths))?;
    let shown = OpenJournal {
        rt,
        journal: kept.answered_journal()?,
    };
    let printed = print_list(rt, &shown, &order.shown);
    end_journal(kept)?;
    printed
}

/// A journal, open and not served.
#[derive(Clone, Copy)]
struct OpenJournal<'a> {
    rt: &'a HostRuntime,
    journal: &'a Journal,
}

impl Pages for OpenJournal<'_> {
    type Fault = JournalCommandFault;

    fn page(&self, question: &Question<&[u8]>) -> Result<Option<Rows>, JournalCommandFault> {
        let alloc = self.rt.alloc();
        let mut body = Vec::new(alloc);
        match write_page_of(self.rt, self.journal, question, &mut body) {
            Ok(Outcome::Written) => match Rows::read(alloc, body) {
                Ok(rows) => Ok(Some(rows)),
                Err(_) => Err(JournalCommandFault::Memory),
            },
            Ok(Outcome::Unknown | Outcome::Refused) => Ok(None),
            Err(_) => Err(JournalCommandFault::Memory),
        }
    }

    fn turns(&self) -> Result<u64, JournalCommandFault> {
        Ok(self.journal.front() as u64)
    }
}
