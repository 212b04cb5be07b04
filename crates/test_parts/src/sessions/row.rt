//! What is fed, and what is to come of it.

use hd_session::{Ended, TurnFault};

/// What is fed, in two pieces, and what is to come of it.
pub(crate) struct Row {
    /// As it is printed.
    pub(crate) name: &'static str,
    /// The first piece.
    pub(crate) first: &'static [u8],
    /// The second piece.
    pub(crate) then: &'static [u8],
    /// All that is to be written.
    pub(crate) replies: &'static [u8],
    /// Why the session is to end, at the second piece or before.
    pub(crate) end: Option<Ended>,
}

/// The lines of the row *repeats and gaps*: a login, five messages and two that are sent again. A proof that
/// has this call has one name for them, and one with the constant all their bytes.
pub(crate) fn lines() -> &'static [u8] {
    LINES
}

const LINES: &[u8] = b"9300CNt1|COpw|\r\
    11NN20260301    10000020260301    100000AOlib|AAp1|ABa1|AC|\r\
    09N20260301    10000020260301    100000APnorth|AOlib|ABa1|AC|\r\
    11NN20260301    10000020260301    100000AOlib|AAp1|ABa1|AC|AY3AZF0C9\r\
    11NN20260301    10000020260301    100000AOlib|AAp1|ABa1|AC|AY3AZF0C9\r\
    09N20260301    10000020260301    100000APnorth|AOlib|ABa1|AC|BIY|AY4AZEE16\r\
    09N20260301    10000020260301    100000APnorth|AOlib|ABa1|AC|BIY|AY4AZEE16\r\
    09N20260301    10000020260301    100000APnorth|AOlib|ABa1|AC|BIY|\r";

/// The rows.
pub(crate) fn rows() -> &'static [Row] {
    &ROWS
}

static ROWS: [Row; 4] = [
    Row {
        name: "estranged at the second ask",
        first: LOGIN_AND_HOLD,
        then: b"15-20260301    100000AOlib|AAp1|AJta|BIY|\r",
        replies: REPLIES,
        end: ESTRANGED,
    },
    Row {
        name: "in one piece with the lines around it",
        first: b"",
        then: b"9300CNt1|COpw|\r15+20260301    100000BSnorth|BY2|AOlib|AAp1|AJta|\r\
            15-20260301    100000AOlib|AAp1|AJta|BIY|\r97\r",
        replies: REPLIES,
        end: ESTRANGED,
    },
    Row {
        name: "nothing more is heard",
        first: b"9300CNt1|COpw|\r15+20260301    100000BSnorth|BY2|AOlib|AAp1|AJta|\r\
            15-20260301    100000AOlib|AAp1|AJta|BIY|\r",
        then: RESEND,
        replies: REPLIES,
        end: ESTRANGED,
    },
    Row {
        name: "a message that asks nothing",
        first: LOGIN_AND_HOLD,
        then: RESEND,
        replies: b"941\r161Y20260301    100000BR1|BSnorth|AOlib|AAp1|AJta|\r\
            161Y20260301    100000BR1|BSnorth|AOlib|AAp1|AJta|\r",
        end: None,
    },
];

const ESTRANGED: Option<Ended> = Some(Ended::Turn(TurnFault::Estranged { front: 1 }));

const LOGIN_AND_HOLD: &[u8] =
    b"9300CNt1|COpw|\r15+20260301    100000BSnorth|BY2|AOlib|AAp1|AJta|\r";

const RESEND: &[u8] = b"97\r";

const REPLIES: &[u8] = b"941\r161Y20260301    100000BR1|BSnorth|AOlib|AAp1|AJta|\r";
