//! What a view answers.
ghost use Rattle.std.specs.Prelude.{List, ℕ};
ghost use Rattle.hd_lists.specs.declared.question.Question.{Question};
ghost use Rattle.hd_lists.specs.Questions.{map_question};
ghost use Rattle.hd_http.specs.Sights.{Sight, Writes};
ghost use Rattle.hd_http.specs.declared.state.State.{State};

use crate::state::State;
use hd_lists::Question;

/// What a view answers.
#[derive(Clone, Copy, Debug, PartialEq, Eq)]
pub enum Outcome {
    /// The rows are written.
    Written,
    /// There is nothing of this name or number.
    Unknown,
    /// There is no such day.
    Refused,
}

/// Why a view can't answer.
#[derive(Clone, Copy, Debug, PartialEq, Eq)]
pub enum ViewFault {
    /// Memory ran out.
    Memory,
    /// The journal is shut, so that nothing of it is shown.
    Shut,
}

/// A view of a library: what it shows is rows of members, and a state.
pub trait View {
    /// What may be seen of what is asked. Where the library goes on meanwhile, several sights may be.
    ghost shows: { Self → Question (List ℕ) → Sight → Type 0 };

    /// The states that may be told.
    ghost tells: { Self → State → Type 0 };

    /// Writes the rows of what is asked, as a JSON array.
    ///
    /// Where the outcome is `Unknown` or `Refused`, `out` is as it was.
    ///
    /// # Errors
    /// Where memory runs out, or the journal is shut. What `out` has then isn't said.
    fn write(&self, question: &Question<&[u8]>, out: &mut Vec<u8>) -> Result<Outcome, ViewFault>
        ensures { Writes (shows self.now (map_question (λ n. n.now) question.now)) result
            out.old.items out.new.items };

    /// How the library stands.
    fn state(&self) -> State
        ensures { tells self.now result };
}
