//! What a session reports while it is fed.
ghost use Rattle.std.specs.Prelude.{◌∷◌, [], List, None, Option};
ghost use Rattle.hd_session.specs.Logs.{Entry, Heard, Logs, Said, Unended, answer_shown};

use hd_date::Stamp18;
use hd_exchange::Login;

/// The answer to a line that isn't empty.
#[derive(Clone, Copy)]
pub struct Answered<'a> {
    /// The present at which the line's last piece came.
    pub present: Stamp18,
    /// The line without its trailer. None where its check number is wrong.
    pub body: Option<&'a [u8]>,
    /// The login of the session after the line.
    pub login: Option<Login>,
    /// The reply, with its trailer and its carriage return.
    pub reply: &'a [u8],
}

/// A log of a session. The session calls it as it decides: at each line before it is answered, at each
/// answer, and at the end of each piece.
pub trait SessionLog {
    /// The calls so far, in order, where an account of them is kept.
    ghost entries: { Self → Option (List Entry) } = { λ _. None };

    /// A line has ended. It is not answered yet, and may be empty.
    fn heard(&mut self, line: &[u8])
        ensures { Logs (entries self.old) (entries self.new) (Heard line.now ∷ []) };

    /// The line that was heard last has its answer. An empty line has none, and neither has the line at
    /// which the session ends.
    fn answered(&mut self, answer: &Answered<'_>)
        ensures { Logs (entries self.old) (entries self.new) (Said (answer_shown answer.now) ∷ []) };

    /// A piece has ended, and this is the beginning of a line that hasn't. It may be empty.
    fn unended(&mut self, line: &[u8])
        ensures { Logs (entries self.old) (entries self.new) (Unended line.now ∷ []) };
}

/// A log that keeps nothing.
#[derive(Clone, Copy)]
pub struct NoLog;

impl SessionLog for NoLog {
    fn heard(&mut self, _line: &[u8]) {}

    fn answered(&mut self, _answer: &Answered<'_>) {}

    fn unended(&mut self, _line: &[u8]) {}
}
