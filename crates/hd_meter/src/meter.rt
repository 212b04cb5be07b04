//! A meter of work.
ghost use Rattle.std.specs.Prelude.{◌≡◌};
ghost use Rattle.hd_meter.specs.Meter.{count_of, with_one_more};

use crate::count::Count;
use std::marker::Model;

/// Counts of work.
///
/// A meter is made from the runtime alone, with all counts 0. It can't be cloned, and its counts only rise.
#[derive(Drop, Debug)]
pub struct Meter {
    steps: u64,
    written: u64,
    looks: u64,
    compared: u64,
}

impl Model for Meter {
    ghost use Rattle.hd_meter.specs.Meter.{Counts};

    ghost Value = { Counts };

    ghost view = { λ m. record {
      steps = m.steps;
      written = m.written;
      looks = m.looks;
      compared = m.compared;
    } };
}

impl Meter {
    /// A meter with all counts 0.
    pub fn new(_rt: &HostRuntime) -> Meter
        ensures { result ≡ record { steps = 0; written = 0; looks = 0; compared = 0 } }
    {
        Meter {
            steps: 0,
            written: 0,
            looks: 0,
            compared: 0,
        }
    }

    /// Raises a count by one. At the greatest value of a `u64` it stays.
    pub fn add(&mut self, what: Count)
        ensures { self.new ≡ with_one_more self.old what }
    {
        match what {
            Count::Step => self.steps = self.steps.saturating_add(1),
            Count::Written => self.written = self.written.saturating_add(1),
            Count::Look => self.looks = self.looks.saturating_add(1),
            Count::Compared => self.compared = self.compared.saturating_add(1),
        }
    }

    /// How often something was counted.
    pub fn count(&self, what: Count) -> u64
        ensures { result ≡ count_of self.now what }
    {
        match what {
            Count::Step => self.steps,
            Count::Written => self.written,
            Count::Look => self.looks,
            Count::Compared => self.compared,
        }
    }
}
