//! What a message comes with.
ghost use Rattle.std.specs.Prelude.{◌≡◌, option_map};
ghost use Rattle.hd_exchange.specs.Arrivals.{ask_of};
ghost use Rattle.hd_rules.specs.Messages.{message_of};

use crate::login::Login;
use hd_date::Stamp18;
use hd_journal::{Ask, SeatNo};
use hd_rules::Asked;
use std::marker::Model;

/// What a message comes with.
#[derive(Drop)]
pub(crate) struct MessageContext<'a> {
    /// The present.
    pub(crate) present: Stamp18,
    /// The seat that takes it.
    pub(crate) seat: SeatNo,
    /// As whom its session is logged in.
    pub(crate) login: Option<Login>,
    /// Its whole line, where that carried a sequence digit.
    pub(crate) line: Option<&'a [u8]>,
}

impl<'a> Model for MessageContext<'a> {
    ghost use Rattle.std.specs.Prelude.{option_map};
    ghost use Rattle.hd_exchange.specs.Arrivals.{Arrival};

    ghost Value = { Arrival };

    ghost view = { λ context. record {
      seat = context.seat;
      present = context.present;
      login = context.login;
      line = option_map (λ bytes. bytes.now) context.line;
    } };
}

impl<'a> MessageContext<'a> {
    /// What a terminal asks by the message.
    pub(crate) fn ask(&self, login: &Login, asked: Asked) -> Ask<'a>
        ensures { message_of result ≡ ask_of self.now login.now asked }
    {
        Ask::new(self.seat, login.terminal, asked, self.line)
    }
}
