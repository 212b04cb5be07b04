//! The clock and the gate of a server's sessions.
ghost use Rattle.std.specs.Prelude.{◌≡◌};
ghost use Rattle.hd_date.specs.Clock.{IsPresent};

use crate::clock::present;
use crate::gate::Gate;
use hd_attend::Surroundings;
use hd_catalogue::Catalogue;
use hd_date::{OffsetMinutes, Stamp18};
use std::time::Clock;

/// A clock with the local time of a library, and a gate.
#[derive(Drop)]
pub(crate) struct ClockAndGate<'a, R, G: Gate> {
    pub(crate) clock: &'a R,
    pub(crate) offset: OffsetMinutes,
    pub(crate) gate: &'a G,
}

impl<'a, R, G: Gate> ClockAndGate<'a, R, G> {
    /// A clock in the local time of the library of a catalogue, and a gate.
    pub(crate) fn of(catalogue: &Catalogue, clock: &'a R, gate: &'a G) -> ClockAndGate<'a, R, G>
        ensures { result.offset ≡ catalogue.now.settings.offset }
    {
        ClockAndGate {
            clock,
            offset: catalogue.offset(),
            gate,
        }
    }
}

impl<'a, R: Clock, G: Gate> Surroundings for ClockAndGate<'a, R, G> {
    ghost use Rattle.std.specs.Prelude.{ℕ, Option};

    /// The local time of any moment, and that of none.
    ghost tells = { λ s stamp. (seconds : Option ℕ) × IsPresent seconds s.offset stamp };

    /// A turn is announced where the gate was called for it.
    ghost is_announced = { λ s. G.is_called s.gate.now };

    fn now(&self) -> Stamp18 {
        present(&|| self.clock.since_1970(), self.offset)
    }

    fn before_turn(&self, session: usize, number: usize) {
        self.gate.before(session, number);
    }
}
