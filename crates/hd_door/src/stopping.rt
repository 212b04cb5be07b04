//! What a request to stop calls.
ghost use Rattle.std.specs.Prelude.{◌≡◌, Bool, true};

/// What `POST /stop` calls. Contracts see whether it was called.
pub trait OnStop {
    /// Whether it was called.
    ghost is_called: { Self → Bool };

    /// Has the server end. It returns at once.
    fn call(&mut self)
        ensures { is_called self.new ≡ true };
}
