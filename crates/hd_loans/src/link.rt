//! A link to a copy.
ghost use Rattle.std.specs.Prelude.{◌≡◌, ◌<◌};
ghost use Rattle.std.specs.Option.{SomeIff};
ghost use Rattle.hd_rules.specs.declared.limits.TheConstants.{MOST_COPIES};

use hd_rules::{CopyNo, MOST_COPIES};
use std::marker::Model;

/// A link of a list of copies: the number of the next one, or `MOST_COPIES`, which no copy has, at the end.
#[derive(Clone, Copy)]
pub(crate) struct Link {
    number: u32,
}

impl Model for Link {
    ghost use Rattle.std.specs.Prelude.{ℕ, ◌≤◌};
    ghost use Rattle.hd_rules.specs.declared.limits.TheConstants.{MOST_COPIES};

    ghost Value = { ℕ };

    ghost view = { λ link. link.number };

    ghost invariant = { λ link. link.number ≤ MOST_COPIES };

    ghost inverse = { λ number. record { number = number } };
}

impl Link {
    /// The end of a list.
    pub(crate) fn end() -> Link
        ensures { result ≡ MOST_COPIES }
    {
        Link {
            number: MOST_COPIES,
        }
    }

    /// A link to the copy.
    pub(crate) fn to(copy: CopyNo) -> Link
        ensures { result ≡ copy }
    {
        Link {
            number: copy.number(),
        }
    }

    /// The copy that it leads to, or `None` at the end.
    pub(crate) fn copy(self) -> Option<CopyNo>
        ensures { SomeIff result (self < MOST_COPIES) self }
    {
        CopyNo::new(self.number)
    }
}
