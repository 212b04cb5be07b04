//! One message of a terminal, from the body of its line to the text of its reply, over any office that makes
//! its turn, or shows its journal to a look.
//!
//! `responding` calls these steps:
//!
//! - read the message: `messages`, by the `extensions` that are on;
//! - answer it at once, where it asks nothing of the desk: `alone`, `logins`, `status`;
//! - find what it asks, by its `dates` and `names`: `requests`, with `checkouts`, `checkins`, `holds`,
//!   `renewals`, `items`;
//! - make its turn at the office: `desk`;
//! - make the reply: `replies`, with `accepted`, `cancellations`, `refusals`; a sorter's fields: `sorting`;
//! - append its text: `writing`.
//!
//! A message about a patron has steps of its own:
//!
//! - find what it asks, or its refusal: `patron_messages`, `patron_texts`, `items_wanted`;
//! - check its password, then look: `patron_answers`, `told_patrons`, `patron_reader`;
//! - make the reply of what the look saw: `look_replies`, with `patron_status`, `patron_information` and
//!   `cards`.
//!
//! The definitions are in `specs/`. `specs/Lib.antt` lists them in the order in which to read them.
#![tactic(auto)]

mod accepted;
mod alone;
mod cancellations;
mod cards;
mod checkin_replies;
mod checkins;
mod checkouts;
mod context;
mod dates;
mod desk;
mod extensions;
mod hold_replies;
mod holds;
mod item_replies;
mod items;
mod items_wanted;
mod laws;
mod loan_replies;
mod login;
mod logins;
mod look_replies;
mod message;
mod messages;
mod names;
mod patron_answers;
mod patron_information;
mod patron_message;
mod patron_messages;
mod patron_reader;
mod patron_refusals;
mod patron_status;
mod patron_texts;
mod refusals;
mod renewals;
mod repeated;
mod replies;
mod reply_kind;
mod requests;
mod responding;
mod sorting;
mod status;
mod told_patrons;
mod unreadable;
mod values;
mod writing;

pub use crate::extensions::{Extensions, profile_of};
pub use crate::laws::{
    each_body_has_one_answer, looks_have_room_for_a_reply, only_patron_messages_look,
    standard_bodies_are_answered_as_before, wrong_passwords_tell_nothing,
};
pub use crate::login::Login;
pub use crate::reply_kind::ReplyKind;
pub use crate::responding::respond;
pub use hd_journal::{Ask, Office, OfficeFault, SeatNo, Turn, TurnFault};
pub use hd_message::Profile;
pub use hd_patrons::Patrons;
