//! Numbers of branches, terminals, titles, copies and patrons, and of seats.
//!
//! A catalogue numbers each of its kinds from 0, in the order in which the names first appear in its file.

ghost use Rattle.std.specs.Prelude.{◌≡◌, ◌<◌, ◌^◌, ℕ};
ghost use Rattle.std.specs.Option.{SomeIff};
ghost use Rattle.hd_rules.specs.declared.limits.TheConstants.{MOST_BRANCHES, MOST_COPIES, MOST_PATRONS};
ghost use Rattle.hd_rules.specs.declared.limits.TheConstants.{MOST_TERMINALS, MOST_TITLES};

use crate::limits::{MOST_BRANCHES, MOST_COPIES, MOST_PATRONS, MOST_TERMINALS, MOST_TITLES};
use std::marker::Model;

/// The number of a branch, from 0, below `MOST_BRANCHES`.
#[derive(Clone, Copy, PartialEq, Eq, PartialOrd, Ord, Hash, Debug)]
pub struct BranchNo {
    number: u16,
}

impl Model for BranchNo {
    ghost Value = { ℕ };

    ghost view = { λ branch. branch.number };

    ghost invariant = { λ branch. branch.number < MOST_BRANCHES };

    ghost inverse = { λ number. record { number = number } };
}

impl BranchNo {
    /// The branch of this number, or nothing at the limit and above.
    pub fn new(number: u16) -> Option<BranchNo>
        ensures { SomeIff result (number < MOST_BRANCHES) number }
    {
        if number < MOST_BRANCHES {
            Some(BranchNo { number })
        } else {
            None
        }
    }

    /// The branch's number.
    pub fn number(self) -> u16
        ensures value { result ≡ self }
        ensures in_range { result < MOST_BRANCHES }
    {
        let BranchNo { number } = self;
        number
    }
}

/// The number of a terminal, from 0, below `MOST_TERMINALS`.
#[derive(Clone, Copy, PartialEq, Eq, PartialOrd, Ord, Hash, Debug)]
pub struct TerminalNo {
    number: u16,
}

impl Model for TerminalNo {
    ghost Value = { ℕ };

    ghost view = { λ terminal. terminal.number };

    ghost invariant = { λ terminal. terminal.number < MOST_TERMINALS };

    ghost inverse = { λ number. record { number = number } };
}

impl TerminalNo {
    /// The terminal of this number, or nothing at the limit and above.
    pub fn new(number: u16) -> Option<TerminalNo>
        ensures { SomeIff result (number < MOST_TERMINALS) number }
    {
        if number < MOST_TERMINALS {
            Some(TerminalNo { number })
        } else {
            None
        }
    }

    /// The terminal's number.
    pub fn number(self) -> u16
        ensures value { result ≡ self }
        ensures in_range { result < MOST_TERMINALS }
    {
        let TerminalNo { number } = self;
        number
    }
}

/// The number of a title, from 0, below `MOST_TITLES`.
#[derive(Clone, Copy, PartialEq, Eq, PartialOrd, Ord, Hash, Debug)]
pub struct TitleNo {
    number: u32,
}

impl Model for TitleNo {
    ghost Value = { ℕ };

    ghost view = { λ title. title.number };

    ghost invariant = { λ title. title.number < MOST_TITLES };

    ghost inverse = { λ number. record { number = number } };
}

impl TitleNo {
    /// The title of this number, or nothing at the limit and above.
    pub fn new(number: u32) -> Option<TitleNo>
        ensures { SomeIff result (number < MOST_TITLES) number }
    {
        if number < MOST_TITLES {
            Some(TitleNo { number })
        } else {
            None
        }
    }

    /// The title's number.
    pub fn number(self) -> u32
        ensures value { result ≡ self }
        ensures in_range { result < MOST_TITLES }
    {
        let TitleNo { number } = self;
        number
    }
}

/// The number of a copy, from 0, below `MOST_COPIES`.
#[derive(Clone, Copy, PartialEq, Eq, PartialOrd, Ord, Hash, Debug)]
pub struct CopyNo {
    number: u32,
}

impl Model for CopyNo {
    ghost Value = { ℕ };

    ghost view = { λ copy. copy.number };

    ghost invariant = { λ copy. copy.number < MOST_COPIES };

    ghost inverse = { λ number. record { number = number } };
}

impl CopyNo {
    /// The copy of this number, or nothing at the limit and above.
    pub fn new(number: u32) -> Option<CopyNo>
        ensures { SomeIff result (number < MOST_COPIES) number }
    {
        if number < MOST_COPIES {
            Some(CopyNo { number })
        } else {
            None
        }
    }

    /// The copy's number.
    pub fn number(self) -> u32
        ensures value { result ≡ self }
        ensures in_range { result < MOST_COPIES }
    {
        let CopyNo { number } = self;
        number
    }
}

/// The number of a patron, from 0, below `MOST_PATRONS`.
#[derive(Clone, Copy, PartialEq, Eq, PartialOrd, Ord, Hash, Debug)]
pub struct PatronNo {
    number: u32,
}

impl Model for PatronNo {
    ghost Value = { ℕ };

    ghost view = { λ patron. patron.number };

    ghost invariant = { λ patron. patron.number < MOST_PATRONS };

    ghost inverse = { λ number. record { number = number } };
}

impl PatronNo {
    /// The patron of this number, or nothing at the limit and above.
    pub fn new(number: u32) -> Option<PatronNo>
        ensures { SomeIff result (number < MOST_PATRONS) number }
    {
        if number < MOST_PATRONS {
            Some(PatronNo { number })
        } else {
            None
        }
    }

    /// The patron's number.
    pub fn number(self) -> u32
        ensures value { result ≡ self }
        ensures in_range { result < MOST_PATRONS }
    {
        let PatronNo { number } = self;
        number
    }
}

/// The number of a seat: from 1 for the seats of a hall, and 0 for a journal that is used alone.
#[derive(Clone, Copy, PartialEq, Eq, PartialOrd, Ord, Hash, Debug)]
pub struct SeatNo {
    number: u32,
}

impl Model for SeatNo {
    ghost Value = { ℕ };

    ghost view = { λ seat. seat.number };

    ghost invariant = { λ seat. seat.number < 2 ^ 32 };

    ghost inverse = { λ number. record { number = number } };
}

impl SeatNo {
    /// The seat of this number.
    pub fn new(number: u32) -> SeatNo
        ensures { result ≡ number }
    {
        SeatNo { number }
    }

    /// The seat's number.
    pub fn number(self) -> u32
        ensures { result ≡ self }
    {
        self.number
    }
}
