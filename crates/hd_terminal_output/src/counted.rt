//! Numbers of things, as the program tells them.

use std::fmt;

/// A number of things, told with the word for one of them or for several: `1 worker`, `4 workers`.
#[derive(Clone, Copy)]
pub struct Counted<'a> {
    number: usize,
    /// The word for just one.
    one: &'a str,
    /// The word for none and for several.
    several: &'a str,
}

impl<'a> Counted<'a> {
    /// A number of things, with the two words for them.
    pub fn of(number: usize, one: &'a str, several: &'a str) -> Counted<'a> {
        Counted {
            number,
            one,
            several,
        }
    }

    /// The word that fits the number.
    fn word(&self) -> &'a str {
        if self.number == 1 {
            self.one
        } else {
            self.several
        }
    }
}

impl fmt::Display for Counted<'_> {
    fn fmt<W: fmt::Write>(&self, f: &mut fmt::Formatter<W>) -> fmt::Result {
        write!(f, "{} {}", self.number, self.word())
    }
}
