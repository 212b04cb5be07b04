//! The values of a line.
ghost use Rattle.std.specs.Prelude.{◌≡◌, ◌==◌, drop, option_map, position, slice_get};
ghost use Rattle.hd_catalogue.specs.Text.{as_four, as_one, as_three, as_two, values_of};

use std::marker::Model;

/// The values of a line that are still to be taken, in order. Bars separate them, and nothing is copied.
#[derive(Drop)]
pub struct Values<'a> {
    left: Option<&'a [u8]>,
}

impl<'a> Model for Values<'a> {
    ghost use Rattle.std.specs.Prelude.{ℕ, List};
    ghost use Rattle.hd_catalogue.specs.Values.{values_left};

    ghost Value = { List (List ℕ) };

    ghost view = { λ values. values_left values.left };
}

impl<'a> Values<'a> {
    /// The values of a line.
    pub fn of(line: &'a [u8]) -> Values<'a>
        ensures { result ≡ values_of line.now }
    {
        Values { left: Some(line) }
    }

    /// Takes the next value, if there is one left.
    pub fn take(&mut self) -> Option<&'a [u8]>
        ensures value { option_map (λ value. value.now) result ≡ slice_get self.old 0 }
        ensures rest { self.new ≡ drop 1 self.old }
    {
        let text = self.left?;
        match first_bar(text) {
            Some(bar) => {
                let (value, rest) = text.split_at(bar);
                let (_, after) = rest.split_at(1);
                self.left = Some(after);
                Some(value)
            }
            None => {
                self.left = None;
                Some(text)
            }
        }
    }

    /// The one value that is left, where it is just one.
    pub fn one(mut self) -> Option<&'a [u8]>
        ensures { option_map (λ a. a.now) result ≡ as_one self.entry }
    {
        let a = self.take()?;
        match self.take() {
            Some(_) => None,
            None => Some(a),
        }
    }

    /// The two values that are left, where they are just two.
    pub fn two(mut self) -> Option<(&'a [u8], &'a [u8])>
        ensures { option_map (λ v. (v.0.now, v.1.now)) result ≡ as_two self.entry }
    {
        let a = self.take()?;
        let b = self.take()?;
        match self.take() {
            Some(_) => None,
            None => Some((a, b)),
        }
    }

    /// The three values that are left, where they are just three.
    pub fn three(mut self) -> Option<(&'a [u8], &'a [u8], &'a [u8])>
        ensures { option_map (λ v. (v.0.now, v.1.now, v.2.now)) result ≡ as_three self.entry }
    {
        let a = self.take()?;
        let b = self.take()?;
        let c = self.take()?;
        match self.take() {
            Some(_) => None,
            None => Some((a, b, c)),
        }
    }

    /// The four values that are left, where they are just four.
    pub fn four(mut self) -> Option<(&'a [u8], &'a [u8], &'a [u8], &'a [u8])>
        ensures { option_map (λ v. (v.0.now, v.1.now, v.2.now, v.3.now)) result ≡ as_four self.entry }
    {
        let a = self.take()?;
        let b = self.take()?;
        let c = self.take()?;
        let d = self.take()?;
        match self.take() {
            Some(_) => None,
            None => Some((a, b, c, d)),
        }
    }
}

/// The place of the first bar, if there is one.
fn first_bar(text: &[u8]) -> Option<usize>
    ensures { result ≡ position (λ byte. byte == 124) text.now }
{
    text.iter().position(|byte| *byte == b'|')
}
