//! What a command asks of a desk, and the answers.

use crate::cells::{Cell, Value};
use crate::holds::{Hold, HoldKind};
use crate::numbers::{BranchNo, CopyNo, PatronNo, TitleNo};
use hd_day::Day;

/// A question to a desk. What a command does depends on the answers to its questions alone.
#[derive(Clone, Copy, PartialEq, Eq, Debug)]
pub enum Question {
    /// What does the cell have?
    Value(Cell),
    /// Which hold comes first for this copy, at this branch on this day?
    Choice(CopyNo, BranchNo, Day),
    /// Which is the least free place of the branch's hold shelf?
    Place(BranchNo),
    /// Has the patron fewer loans than the limit?
    Room(PatronNo),
    /// Which place in the title's queue has a hold with this stamp?
    Position(TitleNo, u64),
    /// Does some copy of the title that such a hold admits stand on an open shelf?
    OnShelf(TitleNo, HoldKind, BranchNo),
}

/// The answer to a question.
#[derive(Clone, Copy, PartialEq, Eq, Debug)]
pub enum Answer {
    /// What the cell has.
    Value(Value),
    /// The whole hold, or none.
    Choice(Option<Hold>),
    /// The place, from 1.
    Place(u32),
    /// Whether there is room.
    Room(bool),
    /// The position, from 1.
    Position(u64),
    /// Whether some copy stands there.
    OnShelf(bool),
}

/// The answer to a question as a record keeps it: with the number that a yes or no came from.
#[derive(Clone, Copy, PartialEq, Eq, Debug)]
pub enum Noted {
    /// What the cell has.
    Value(Value),
    /// The whole hold, or none.
    Choice(Option<Hold>),
    /// The place, from 1.
    Place(u32),
    /// How many loans the patron has.
    Room(u32),
    /// The position, from 1.
    Position(u64),
    /// How many copies that such a hold admits stand on open shelves.
    OnShelf(u32),
}

/// A question that a command asked, with its noted answer.
#[derive(Clone, Copy, PartialEq, Eq, Debug)]
pub struct Finding {
    /// The question.
    pub question: Question,
    /// What was found.
    pub noted: Noted,
}

impl Default for Finding {
    ghost use Rattle.std.specs.Prelude.{◌≡◌};
    ghost use Rattle.hd_rules.specs.declared.questions.Question.{Question};
    ghost use Rattle.hd_rules.specs.declared.questions.Noted.{Noted};

    ghost is_default = { λ finding. finding ≡ record { question = Question.Place 0; noted = Noted.Place 0 } };

    /// A question with a number that answers nothing. It fills the unused places of a short list.
    fn default() -> Finding {
        Finding {
            question: Question::Place(BranchNo::new(0).unwrap()),
            noted: Noted::Place(0),
        }
    }
}
