//! Having a server end.
ghost use Rattle.std.specs.Prelude.{◌≡◌, is_some};

use hd_door::OnStop;
use hd_serve::{AskedToEnd, Standing};
use std::alloc::AllocError;
use std::sync::Wait;

/// What `POST /stop` calls: it asks the server to end.
pub(crate) struct AskToEnd<'a, R> {
    pub(crate) rt: &'a R,
    pub(crate) standing: &'a Standing,
    /// That the server was asked, where it was.
    pub(crate) asked: Option<AskedToEnd>,
}

impl<'a, R> Clone for AskToEnd<'a, R> {
    fn clone(&self) -> Result<AskToEnd<'a, R>, AllocError> {
        Ok(AskToEnd {
            rt: self.rt,
            standing: self.standing,
            asked: self.asked,
        })
    }
}

impl<'a, R> Copy for AskToEnd<'a, R> {}

impl<'a, R: Wait> OnStop for AskToEnd<'a, R> {
    ghost is_called = { λ ask. is_some ask.asked };

    fn call(&mut self) {
        self.asked = Some(self.standing.ask_to_end(self.rt));
    }
}
