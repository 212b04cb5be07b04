//! A terminal in a session, alone at a journal.
ghost use Rattle.hd_session.specs.States.{IsKnownTo};

use crate::library::{new_journal, present};
use hd_date::Stamp18;
use hd_journal::Journal;
use hd_session::{Extensions, Session};

/// A terminal in a session, alone at a journal, with all that it was answered.
pub(crate) struct Alone<'e> {
    journal: Journal,
    pub(crate) session: Session<'e>,
    pub(crate) text: Vec<u8>,
    now: Stamp18,
    ghost known: { IsKnownTo journal.contents session.state },
}

// Written out, so that a caller's proof sees one call and not the drop of each field.
impl<'e> Drop for Alone<'e> {
    fn drop(self) {
        let Alone {
            journal: _journal,
            session: _session,
            text: _text,
            now: _now,
        } = self;
    }
}

impl<'e> Alone<'e> {
    /// A terminal that has sent nothing, with these extensions. None where there is no memory.
    pub(crate) fn open(rt: &HostRuntime, extensions: Option<&'e Extensions>) -> Option<Alone<'e>> {
        let now = present()?;
        let journal = new_journal(rt)?;
        match Session::opened(rt.alloc(), extensions) {
            Ok(session) => Some(Alone {
                journal,
                session,
                text: Vec::new(rt.alloc()),
                now,
            }),
            Err(_) => None,
        }
    }

    /// Sends bytes.
    pub(crate) fn send(&mut self, bytes: &[u8]) {
        let _ = self
            .session
            .feed(bytes, &self.now, &mut self.journal, &mut self.text);
    }
}
