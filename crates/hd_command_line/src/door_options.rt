//! The options of the commands that ask a server at its door.

use crate::options::PLAIN;
use crate::words::{Form, Number, OptionWords, Value};

/// The door of the server that is asked.
pub(crate) const DOOR_ASKED: OptionWords = OptionWords {
    name: "door",
    value: Value::Text("PATH"),
    help: "The Unix socket of the server, as its own --door names it",
    is_required: true,
    ..PLAIN
};

/// What is asked for. Those below say what it is.
const ASKED: OptionWords = OptionWords {
    form: Form::Placed,
    is_required: true,
    ..PLAIN
};

/// A copy.
pub(crate) const COPY_ASKED: OptionWords = OptionWords {
    name: "copy",
    value: Value::Text("COPY"),
    help: "The copy, by its name",
    ..ASKED
};

/// A title.
pub(crate) const TITLE_ASKED: OptionWords = OptionWords {
    name: "title",
    value: Value::Text("TITLE"),
    help: "The title, by its name",
    ..ASKED
};

/// A patron.
pub(crate) const PATRON_ASKED: OptionWords = OptionWords {
    name: "patron",
    value: Value::Text("PATRON"),
    help: "The patron, by the name on their card",
    ..ASKED
};

/// A branch.
pub(crate) const BRANCH_ASKED: OptionWords = OptionWords {
    name: "branch",
    value: Value::Text("BRANCH"),
    help: "The branch, by its name",
    ..ASKED
};

/// A day.
pub(crate) const DAY_ASKED: OptionWords = OptionWords {
    name: "day",
    value: Value::Text("DAY"),
    help: "The day, as 2026-03-01",
    ..ASKED
};

/// A command's number.
pub(crate) const NUMBER_ASKED: OptionWords = OptionWords {
    name: "number",
    value: Value::Number(Number {
        name: "NUMBER",
        least: 1,
        most: u32::MAX,
        defaults: &[],
    }),
    help: "The command, by its number",
    ..ASKED
};

/// After which turn to begin.
pub(crate) const AFTER: OptionWords = OptionWords {
    name: "after",
    value: Value::Number(Number {
        name: "N",
        least: 0,
        most: u32::MAX,
        defaults: &[],
    }),
    help: "Begin after this turn; without it the last ones are shown",
    ..PLAIN
};

/// How many turns are shown.
pub(crate) const LIMIT: OptionWords = OptionWords {
    name: "limit",
    value: Value::Number(Number {
        name: "M",
        least: 1,
        most: 1_000_000,
        defaults: &["20"],
    }),
    help: "How many turns to show at most, 1 to 1000000",
    ..PLAIN
};
