//! The rows.

use crate::wishes::{Deed, Names, ONE};

/// What a terminal asks, one thing after another.
pub(crate) struct Row {
    /// As it is printed.
    pub(crate) name: &'static str,
    pub(crate) steps: &'static [Step],
}

/// What is asked in one turn.
pub(crate) struct Step {
    pub(crate) names: Names,
    pub(crate) deed: Deed,
    /// The message's line, where it carries a sequence digit.
    pub(crate) line: Option<&'static [u8]>,
}

/// The first terminal, for the second patron.
const FOR_TWO: Names = Names {
    patron: b"p2",
    ..ONE
};

/// The rows.
pub(crate) fn rows() -> &'static [Row] {
    &ROWS
}

static ROWS: [Row; 2] = [REPEATS_AND_GAPS, OFF_LINE_CHECKOUTS];

/// A checkout with a sequence digit.
const CHECKOUT_3: Step = Step {
    names: ONE,
    deed: Deed::Checkout,
    line: Some(b"11NN20260301    10000020260301    100000AOlib|AAp1|ABa1|AC|AY3AZF0C9"),
};

/// Its cancellation, with the next digit.
const NO_CHECKOUT_4: Step = Step {
    names: ONE,
    deed: Deed::NoCheckout,
    line: Some(b"09N20260301    10000020260301    100000APnorth|AOlib|ABa1|AC|BIY|AY4AZEE16"),
};

/// A return.
const CHECKIN: Step = Step {
    names: ONE,
    deed: Deed::Checkin,
    line: None,
};

/// The cancellation of a checkout.
const NO_CHECKOUT: Step = Step {
    names: ONE,
    deed: Deed::NoCheckout,
    line: None,
};

/// Messages that are sent again: the second checkout and its cancellation, each with its sequence digit. The
/// first checkout is then to be cancelled without one, and the return depends on it.
const REPEATS_AND_GAPS: Row = Row {
    name: "repeats and gaps",
    steps: &[
        Step {
            names: ONE,
            deed: Deed::Checkout,
            line: None,
        },
        CHECKIN,
        CHECKOUT_3,
        CHECKOUT_3,
        NO_CHECKOUT_4,
        NO_CHECKOUT_4,
        NO_CHECKOUT,
    ],
};

/// A copy that stands on the hold shelf for one patron was lent to another while the terminal was off line.
/// That is reported, and cancelled.
const OFF_LINE_CHECKOUTS: Row = Row {
    name: "off-line checkouts",
    steps: &[
        Step {
            names: ONE,
            deed: Deed::Hold,
            line: None,
        },
        CHECKIN,
        Step {
            names: FOR_TWO,
            deed: Deed::OffLine,
            line: None,
        },
        NO_CHECKOUT,
        Step {
            names: ONE,
            deed: Deed::Item,
            line: None,
        },
    ],
};
