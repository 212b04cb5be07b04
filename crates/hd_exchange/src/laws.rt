//! Laws of answers.
ghost use Rattle.std.specs.Prelude.{◌≡◌, ◌↔◌, ◌≤◌, ℕ, All, List, Option, false, length, take};
ghost use Rattle.std.specs.Borrow.{Bor};
ghost use Rattle.hd_date.specs.Stamps.{Stamp};
ghost use Rattle.hd_message.specs.PatronReplies.{items_text, patron_text};
ghost use Rattle.hd_message.specs.declared.patron_reply.PatronReply.{PatronReply};
ghost use Rattle.hd_rules.specs.Desk.{Desk};
ghost use Rattle.hd_catalogue.specs.Contents.{Contents};
ghost use Rattle.hd_exchange.specs.Answers.{IsAnswer};
ghost use Rattle.hd_exchange.specs.Deeds.{AreTurns, Deed, messages_of};
ghost use Rattle.hd_exchange.specs.Extensions.{Extensions, no_extensions};
ghost use Rattle.hd_exchange.specs.PatronInformation.{HasBytes};
ghost use Rattle.hd_exchange.specs.PatronReplies.{AreMistaken, IsReplyAt};
ghost use Rattle.hd_exchange.specs.StandardAnswers.{IsStandardAnswer};
ghost use Rattle.hd_exchange.specs.declared.login.Login.{Login};
ghost use Rattle.hd_exchange.specs.declared.patron_message.PatronLook.{PatronLook};
ghost use Rattle.hd_exchange.specs.declared.patron_message.PatronValues.{PatronValues};
ghost use Rattle.hd_exchange.specs.declared.patron_reader.TheConstants.{MOST_ITEMS};
ghost use Rattle.hd_exchange.specs.declared.reply_kind.ReplyKind.{ReplyKind};

use hd_date::{prints_show_their_stamp, texts_show_one_stamp};
use hd_message::{patron_requests_are_readable, requests_are_readable};

/// A body that comes in the same way asks the same of the office: a turn by one message, or a look, or
/// nothing. Where the turn, or the journal that the look reads, is the same too, the body has one answer: one
/// kind of reply, one text, and one login after it.
pub fn each_body_has_one_answer()
    ensures asks { (k : Contents) (e : Extensions) (seat : ℕ) (now : Stamp) (login : Option Login)
        (line : Option (List ℕ)) (body : List ℕ) (says says' : ReplyKind) (text text' : List ℕ)
        (did did' : List Deed) (next next' : Option Login)
        → IsAnswer k e seat now login line body says text did next
        → IsAnswer k e seat now login line body says' text' did' next'
        → messages_of did ≡ messages_of did' }
    ensures answer { (k : Contents) (e : Extensions) (seat : ℕ) (now : Stamp) (login : Option Login)
        (line : Option (List ℕ)) (body : List ℕ) (says says' : ReplyKind) (text text' : List ℕ)
        (did : List Deed) (next next' : Option Login)
        → IsAnswer k e seat now login line body says text did next
        → IsAnswer k e seat now login line body says' text' did next'
        → (says ≡ says') × (text ≡ text') × (next ≡ next') }
{
    prints_show_their_stamp();
    texts_show_one_stamp();
    requests_are_readable();
    patron_requests_are_readable();
}

/// Where patron messages are off, an office shows no journal to a look: it makes a turn, or does nothing.
pub fn only_patron_messages_look()
    ensures { (k : Contents) (e : Extensions) (seat : ℕ) (now : Stamp) (login : Option Login)
        (line : Option (List ℕ)) (body : List ℕ) (says : ReplyKind) (text : List ℕ) (did : List Deed)
        (next : Option Login)
        → e.profile.patron_messages ≡ false
        → IsAnswer k e seat now login line body says text did next
        → AreTurns did }
{}

/// Where nothing extends the standard messages each body is answered what it was before there were
/// extensions, and nothing else.
pub fn standard_bodies_are_answered_as_before()
    ensures { (k : Contents) (seat : ℕ) (now : Stamp) (login : Option Login) (line : Option (List ℕ))
        (body : List ℕ) (says : ReplyKind) (text : List ℕ) (did : List Deed) (next : Option Login)
        → (IsAnswer k no_extensions seat now login line body says text did next
        ↔ IsStandardAnswer k seat now login line body says text did next) }
{}

/// With a wrong password the reply reports neither the patron's name nor a list: whatever these are, its text
/// is the same.
pub fn wrong_passwords_tell_nothing()
    ensures { (k : Contents) (values : PatronValues) (look : PatronLook) (e f : Extensions)
        (desk other : Desk) (a b : PatronReply) → AreMistaken k values look e f desk other
        → IsReplyAt k values e look desk a → IsReplyAt k values f look other b
        → patron_text a ≡ patron_text b }
{}

/// A look reads more items of a list than a reply has room for: nothing that is left out would be printed.
pub fn looks_have_room_for_a_reply()
    ensures { (code : List ℕ) (room : ℕ) (names : List (Bor (List ℕ))) → length code ≡ 2 → room ≤ 2038 →
        All HasBytes names → items_text code room (take MOST_ITEMS names) ≡ items_text code room names }
{}
