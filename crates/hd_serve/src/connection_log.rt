//! The log of a connection: what its session hears and answers, as events.
ghost use Rattle.std.specs.Prelude.{◌≡◌, ◌∷◌, ◌++◌, [], ℕ, List, Some, false};
ghost use Rattle.std.specs.Option.{option_copied};
ghost use Rattle.hd_serve.specs.Reports.{IsBodyReported, IsLineReported, IsReplyReported};

use crate::day_watch::DayWatch;
use crate::gate::Observer;
use crate::logins::{login_event, name_of};
use crate::speaking::Speaker;
use hd_catalogue::Catalogue;
use hd_log::ConnectionEvent;
use hd_session::{Answered, SessionLog};

/// What ends a reply.
const CARRIAGE_RETURN: u8 = b'\r';

/// The beginning of a reply that requests the line again.
const RESEND: &[u8] = b"96";

/// Reports each line, login and reply of a session to an observer, and counts the replies.
#[derive(Drop)]
pub(crate) struct ConnectionLog<'a, O: Observer> {
    catalogue: &'a Catalogue,
    speaker: &'a Speaker<'a, O>,
    days: DayWatch,
    /// Whether nothing is to be reported.
    is_quiet: bool,
    replies: u64,
    /// Whether a line feed in the line that hasn't ended was reported.
    has_line_feed: bool,
    /// Whether a request for a line was reported.
    has_resend: bool,
}

impl<'a, O: Observer> ConnectionLog<'a, O> {
    /// The log of a connection of which nothing has been read.
    pub(crate) fn new(
        catalogue: &'a Catalogue,
        speaker: &'a Speaker<'a, O>,
        days: DayWatch,
    ) -> ConnectionLog<'a, O> {
        ConnectionLog {
            catalogue,
            speaker,
            days,
            is_quiet: speaker.is_quiet(),
            replies: 0,
            has_line_feed: false,
            has_resend: false,
        }
    }

    /// How many replies the session has given.
    pub(crate) fn replies(&self) -> u64
        ensures { result ≡ self.now.replies }
    {
        self.replies
    }

    /// Reports a line.
    fn report_line(&mut self, line: &[u8])
        ensures { self.old.is_quiet ≡ false → IsLineReported (O.was_told self.old.speaker.now.observer.now)
            self.old.speaker.now.connection line.now }
    {
        self.has_line_feed = false;
        if !self.is_quiet {
            self.speaker.tell(ConnectionEvent::Line { text: line });
        }
    }

    /// Reports an answer: a login or a day that is off, and the reply.
    fn report_answer(&mut self, answer: &Answered<'_>)
        ensures body { self.old.is_quiet ≡ false → IsBodyReported (O.was_told self.old.speaker.now.observer.now)
            self.old.speaker.now.connection self.old.catalogue.now (option_copied answer.now.body)
            answer.now.login answer.now.reply.now }
        ensures reply { self.old.is_quiet ≡ false → (text : List ℕ) → answer.now.reply.now ≡ text ++ 13 ∷ []
            → IsReplyReported (O.was_told self.old.speaker.now.observer.now)
            self.old.speaker.now.connection text }
    {
        if !self.is_quiet {
            self.report_body(answer);
            self.report_reply(answer.reply);
        }
    }

    /// Reports the login that a line was, or that its day is off.
    fn report_body(&mut self, answer: &Answered<'_>)
        ensures told { IsBodyReported (O.was_told self.old.speaker.now.observer.now)
            self.old.speaker.now.connection self.old.catalogue.now (option_copied answer.now.body)
            answer.now.login answer.now.reply.now }
        ensures speaker { self.new.speaker ≡ self.old.speaker }
    {
        let Some(body) = answer.body else {
            return;
        };
        if let Some(login) = login_event(self.catalogue, body, answer) {
            self.speaker.tell(login);
        } else if let Some(off) = self.days.see(answer.present.day(), body) {
            self.speaker.tell(ConnectionEvent::ClockOff {
                terminal: name_of(self.catalogue, answer.login),
                date: off.date,
                days: off.days,
            });
        }
    }

    /// Reports a reply, and the first that requests a line again.
    fn report_reply(&mut self, reply: &[u8])
        ensures { (text : List ℕ) → reply.now ≡ text ++ 13 ∷ []
            → IsReplyReported (O.was_told self.old.speaker.now.observer.now)
            self.old.speaker.now.connection text }
    {
        let Some(text) = without_return(reply) else {
            return;
        };
        self.replies = self.replies.saturating_add(1);
        self.speaker.tell(ConnectionEvent::Reply { text });
        if !self.has_resend && text.starts_with(RESEND) {
            self.speaker.tell(ConnectionEvent::ResendRequested);
            self.has_resend = true;
        }
    }
}

impl<'a, O: Observer> SessionLog for ConnectionLog<'a, O> {
    fn heard(&mut self, line: &[u8]) {
        self.report_line(line);
    }

    fn answered(&mut self, answer: &Answered<'_>) {
        self.report_answer(answer);
    }

    fn unended(&mut self, line: &[u8]) {
        if !self.is_quiet && !self.has_line_feed && line.contains(&b'\n') {
            self.speaker.tell(ConnectionEvent::LineFeedAlone);
            self.has_line_feed = true;
        }
    }
}

/// A reply without its carriage return. None where none ends it.
fn without_return(reply: &[u8]) -> Option<&[u8]>
    ensures { (text : List ℕ) → reply.now ≡ text ++ 13 ∷ [] → option_copied result ≡ Some text }
{
    reply.strip_suffix(&[CARRIAGE_RETURN])
}
