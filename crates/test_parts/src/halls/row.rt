//! Rows of two seats at a hall.

use crate::wishes::{Names, ONE};

/// A row: what the first seat asks, then what the second asks, and how the two are handed in.
pub(crate) struct Row {
    /// As it is printed.
    pub(crate) name: &'static str,
    pub(crate) first: Step,
    pub(crate) second: Step,
    pub(crate) closing: Closing,
    /// How many commands survive.
    pub(crate) survivors: usize,
}

/// A hold, and what comes of it.
#[derive(Clone, Copy)]
pub(crate) struct Step {
    pub(crate) names: Names,
    pub(crate) told: Told,
}

/// What comes of a hold.
#[derive(Clone, Copy)]
pub(crate) enum Told {
    /// It is accepted as the command of this number.
    Number(u64),
    /// It is refused, since the patron has one.
    HoldExists,
}

/// How the seats are handed in.
#[derive(Clone, Copy)]
pub(crate) enum Closing {
    /// The first, then the second.
    InOrder,
    /// The second, then the first.
    OutOfOrder,
    /// The first alone, which doesn't close the hall; then the second too.
    FirstAlone,
    /// The second alone, which doesn't close the hall; then the first too.
    SecondAlone,
}

/// The second terminal for the second patron, about the same title.
pub(crate) const OTHER: Names = Names {
    terminal: b"t2",
    patron: b"p2",
    ..ONE
};

/// Each patron's hold is accepted.
const HELD_BY_1: Step = Step {
    names: ONE,
    told: Told::Number(1),
};

const HELD_BY_2: Step = Step {
    names: OTHER,
    told: Told::Number(2),
};

/// The second seat comes too late with the hold of the first.
const HELD_ALREADY: Step = Step {
    told: Told::HoldExists,
    ..HELD_BY_1
};

/// The rows.
pub(crate) fn rows() -> &'static [Row] {
    &ROWS
}

static ROWS: [Row; 3] = [
    Row {
        name: "two seats",
        first: HELD_BY_1,
        second: HELD_ALREADY,
        closing: Closing::FirstAlone,
        survivors: 1,
    },
    Row {
        name: "seat missing",
        first: HELD_BY_1,
        second: HELD_BY_2,
        closing: Closing::SecondAlone,
        survivors: 2,
    },
    Row {
        name: "seats out of order",
        first: HELD_BY_1,
        second: HELD_BY_2,
        closing: Closing::OutOfOrder,
        survivors: 2,
    },
];
