//! An office whose turns are announced.
ghost use Rattle.std.specs.Prelude.{◌≡◌, ◌+◌, min, IsTrue};
ghost use Rattle.hd_attend.specs.Announcements.{AreAnnounced};

use crate::surroundings::Surroundings;
use hd_catalogue::Catalogue;
use hd_exchange::{Ask, Office, SeatNo, Turn, TurnFault};
use hd_journal::Look;
use std::alloc::Allocator;

/// Wraps the office of a session: announces each turn to the session's surroundings before it is made. All
/// turns up to the last were announced, each by its number.
#[derive(Drop)]
pub(crate) struct AnnouncedOffice<'a, O, S: Surroundings> {
    office: &'a mut O,
    surroundings: &'a S,
    session: usize,
    /// The number of the last turn, or 0. It stays at the greatest value.
    turn: usize,
    ghost announced: { AreAnnounced (S.is_announced surroundings.now session) turn },
}

impl<'a, O, S: Surroundings> AnnouncedOffice<'a, O, S> {
    /// The office, before the first turn of the session of this number.
    pub(crate) fn new(
        office: &'a mut O,
        surroundings: &'a S,
        session: usize,
    ) -> AnnouncedOffice<'a, O, S>
        ensures same_reference { result.office.ghost_name ≡ office.entry.ghost_name }
        ensures office { result.office.now ≡ office.old }
        ensures turn { result.turn ≡ 0 }
    {
        AnnouncedOffice {
            office,
            surroundings,
            session,
            turn: 0,
        }
    }

    /// Announces the next turn: its number, which is one more.
    fn announce(&self) -> usize
        ensures next { result ≡ min (self.now.turn + 1) usize.MAX }
        ensures announced { IsTrue (S.is_announced self.now.surroundings.now self.now.session result) }
    {
        let turn = self.turn.saturating_add(1);
        self.surroundings.before_turn(self.session, turn);
        turn
    }
}

impl<'a, A: Allocator, O: Office<A>, S: Surroundings> Office<A> for AnnouncedOffice<'a, O, S> {
    ghost use Rattle.std.specs.Prelude.{◌∷◌};

    ghost keeps = { λ announced. record {
      contents = (O.keeps announced.office.now).contents;
      seat = (O.keeps announced.office.now).seat;
      borrows = announced.office.ghost_name ∷ (O.keeps announced.office.now).borrows;
    } };

    ghost turns = { λ announced. O.turns announced.office.now };

    ghost last_number = { λ announced. O.last_number announced.office.now };

    ghost faults = { O.faults };

    ghost causes = { λ old new. O.causes old.office.now new.office.now };

    ghost holds = { λ announced. O.holds announced.office.now };

    ghost shows = { O.shows };

    fn catalogue(&self) -> &Catalogue<A> {
        self.office.catalogue()
    }

    fn seat(&self) -> SeatNo {
        self.office.seat()
    }

    fn look<L: Look<A>>(&self, reader: &mut L) -> Result<(), TurnFault> {
        self.office.look(reader)
    }

    fn turn(&mut self, ask: &Ask<'_>) -> Result<Turn, TurnFault> {
        self.turn = self.announce();
        self.office.turn(ask)
    }
}
