//! Answering a message that asks nothing of the desk.
ghost use Rattle.std.specs.Prelude.{◌≡◌, ◌+◌, ◌≤◌, ℕ, List, length, vec_len, vec_capacity};
ghost use Rattle.std.specs.Option.{ForSome};
ghost use Rattle.hd_catalogue.specs.Contents.{facts_of};
ghost use Rattle.hd_exchange.specs.Answers.{IsTextAlone, login_alone, said_alone};
ghost use Rattle.hd_exchange.specs.Arrivals.{IsKnownLogin};
ghost use Rattle.hd_exchange.specs.Messages.{IsKnownOwn};
ghost use Rattle.hd_exchange.specs.Works.{Extends};

use crate::login::Login;
use crate::logins::login_after;
use crate::message::SessionMessage;
use crate::reply_kind::ReplyKind;
use crate::status::write_status;
use crate::writing::write_reply;
use hd_catalogue::Catalogue;
use hd_date::Stamp18;
use hd_message::{LoginReply, Profile, Reply};
use std::alloc::Allocator;

/// Says what is said to a message that asks nothing of the desk, and appends the text of its reply where it
/// has one. A login that is taken changes as whom the session is logged in.
pub(crate) fn answer_alone<A: Allocator + Copy>(
    catalogue: &Catalogue<A>,
    profile: Profile,
    now: &Stamp18,
    message: &SessionMessage,
    login: &mut Option<Login>,
    out: &mut Vec<u8, A>,
) -> ReplyKind
    requires message { IsKnownOwn (facts_of catalogue.now) message.now }
    requires login { ForSome login.old (IsKnownLogin (facts_of catalogue.now)) }
    requires room { vec_len out.old + 2038 ≤ vec_capacity out.old }
    ensures said { result ≡ said_alone message.now }
    ensures text { (text : List ℕ)
        × IsTextAlone catalogue.now profile now.now message.now text
        × Extends out.old out.new text
        × (length text ≤ 2038) }
    ensures next { login.new ≡ login_alone login.old message.now }
    ensures login { ForSome login.new (IsKnownLogin (facts_of catalogue.now)) }
{
    match message {
        SessionMessage::Login(made) => {
            let taken = made.is_some();
            write_reply(&Reply::Login(LoginReply { taken }), out);
            *login = login_after(*login, *made);
            ReplyKind::Reply
        }
        SessionMessage::Status => {
            write_status(catalogue, profile, now, out);
            ReplyKind::Reply
        }
        SessionMessage::Resend => ReplyKind::LastReply,
        SessionMessage::Unsupported => ReplyKind::SendAgain,
    }
}
