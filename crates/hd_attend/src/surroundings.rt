//! The clock of a session, and the calls before its turns.
ghost use Rattle.std.specs.Prelude.{◌<◌, Bool, ℕ, IsTrue, true};
ghost use Rattle.hd_date.specs.Stamps.{Stamp};

use hd_date::Stamp18;

/// The clock of the sessions that are attended to, and the calls before their turns.
pub trait Surroundings {
    /// The presents that the clock may give.
    ghost tells: { Self → Stamp → Type 0 };

    /// Whether this turn of this session was announced, each by its number. Only `before_turn` makes this true.
    /// Surroundings that take no notice of turns take each as announced.
    ghost is_announced: { Self → ℕ → ℕ → Bool } = { λ _ _ _. true };

    /// The present.
    fn now(&self) -> Stamp18
        ensures { tells self.now result };

    /// Before a turn of the session of this number, outside any lock. Its turns are counted from 1.
    fn before_turn(&self, session: usize, number: usize)
        requires { 0 < number }
        ensures { IsTrue (is_announced self.now session number) };
}
