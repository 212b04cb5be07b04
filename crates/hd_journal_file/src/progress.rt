//! The receiver of reports on how many of a file's turns a journal has taken again so far.

ghost use Rattle.std.specs.Prelude.{ℕ};

/// What gets, from time to time, the number of a file's turns that are taken again. What it does then is its
/// own matter: it changes neither the journal nor the file nor the result.
pub trait Progress {
    /// That a call reported this number to it, by what it was before and is then.
    ghost hears: { Self → ℕ → Self → Type 0 } = { λ _ _ _. Unit {0} };

    /// Reports that `turns` turns are taken again so far.
    fn taken(&mut self, turns: u32)
        ensures { hears self.old turns self.new };
}

/// Nobody.
impl Progress for () {
    fn taken(&mut self, _turns: u32) {}
}
