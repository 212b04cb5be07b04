//! A look at what a patron has.
ghost use Rattle.std.specs.Prelude.{◌≡◌, ◌<◌, None};
ghost use Rattle.hd_catalogue.specs.Contents.{facts_of};
ghost use Rattle.hd_message.specs.declared.patron_reply.PasswordValidity.TheVariants.{Wrong};
ghost use Rattle.hd_exchange.specs.PatronInformation.{list_allowed, list_asked, look_allowed};
ghost use Rattle.hd_exchange.specs.PatronInformation.{question_allowed};
ghost use Rattle.hd_exchange.specs.Seeing.{HasSeen};

use crate::patron_message::{PatronLook, PatronQuestion};
use arrayvec::ArrayVec;
use hd_journal::{Journal, Look};
use hd_message::PasswordValidity;
use hd_patron_view::{page, view};
use hd_rules::{ListItem, PatronView, Wanted};
use std::alloc::Allocator;

/// How many items of a list a look takes down: more than a reply has room for.
pub(crate) const MOST_ITEMS: usize = 512;

/// Reads how much a patron has, and the items that are wanted of a list. It has the room for them.
#[derive(Drop)]
pub(crate) struct PatronReader {
    /// What is asked about whom.
    pub(crate) look: PatronLook,
    /// How much the patron has; nothing before the look.
    pub(crate) view: Option<PatronView>,
    /// The items of the part of a list that is wanted, as many as there is room for; none where none is
    /// wanted, or before the look.
    pub(crate) items: ArrayVec<ListItem, MOST_ITEMS>,
}

impl PatronReader {
    /// A reader that hasn't looked yet, for a message whose password is checked so. Where the password is
    /// wrong it reads no list.
    #[tactic(auto, using(crate::proofs::Looking::none_asked))]
    pub(crate) fn new(look: &PatronLook, password: PasswordValidity) -> PatronReader
        ensures look { result.look ≡ look_allowed password look.now }
        ensures wrong { password ≡ Wrong → list_asked result.look.question ≡ None }
    {
        PatronReader {
            look: look_allowed(look, password),
            view: None,
            items: ArrayVec::new(),
        }
    }
}

impl<A: Allocator + Copy> Look<A> for PatronReader {
    ghost fits = { λ reader k. reader.look.patron < (facts_of k).patrons };

    ghost saw = { HasSeen };

    fn look(&mut self, journal: &Journal<A>) {
        let desk = journal.desk();
        let patron = self.look.patron;
        let day = self.look.day;
        self.view = Some(view(desk, patron, day));
        match list_asked(&self.look.question) {
            Some(wanted) => page(desk, patron, day, &wanted, &mut self.items),
            None => self.items.clear(),
        }
    }
}

/// The look that a password allows.
fn look_allowed(look: &PatronLook, password: PasswordValidity) -> PatronLook
    ensures { result ≡ look_allowed password look.now }
{
    PatronLook {
        patron: look.patron,
        day: look.day,
        question: question_allowed(look.question, password),
    }
}

/// The question that a password allows.
fn question_allowed(question: PatronQuestion, password: PasswordValidity) -> PatronQuestion
    ensures { result ≡ question_allowed password question }
{
    match question {
        PatronQuestion::Information(wanted) => {
            PatronQuestion::Information(list_allowed(wanted, password))
        }
        PatronQuestion::Status | PatronQuestion::Block | PatronQuestion::RenewAll => question,
    }
}

/// The part of a list that a password allows to read: none where it is wrong.
fn list_allowed(wanted: Option<Wanted>, password: PasswordValidity) -> Option<Wanted>
    ensures { result ≡ list_allowed password wanted }
{
    match password {
        PasswordValidity::Unasked | PasswordValidity::Right => wanted,
        PasswordValidity::Wrong => None,
    }
}

/// The part of a list that is wanted, where the question wants one.
fn list_asked(question: &PatronQuestion) -> Option<Wanted>
    ensures { result ≡ list_asked question.now }
{
    match question {
        PatronQuestion::Information(wanted) => *wanted,
        PatronQuestion::Status | PatronQuestion::Block | PatronQuestion::RenewAll => None,
    }
}
