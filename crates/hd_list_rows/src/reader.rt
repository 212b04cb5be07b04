//! What shows a page.
ghost use Rattle.std.specs.Prelude.{◌≡◌, ◌<◌, ◌∷◌, [], None, IfOk, min};
ghost use Rattle.hd_catalogue.specs.Contents.{facts_of};
ghost use Rattle.hd_desk.specs.Desks.{desk_of, facts};
ghost use Rattle.hd_lists.specs.Lists.{key_of};
ghost use Rattle.hd_list_rows.specs.Pages.{capped};
ghost use Rattle.hd_list_rows.specs.Rows.{copy_row};
ghost use Rattle.hd_list_rows.specs.Shown.{HasShown, IsPageOf, IsWorkOf};
ghost use Rattle.hd_list_rows.specs.Topics.{IsNumberOf, IsTopicOf};

use crate::command::show_command;
use crate::copies::show_copies;
use crate::expired::show_expired;
use crate::page::Page;
use crate::patron::show_patron;
use crate::queue::show_queue;
use crate::row::Row;
use crate::topic::{Topic, topic_of};
use crate::turns::show_turns;
use hd_desk::{Desk, Meter};
use hd_journal::{Journal, Look};
use hd_lists::Question;
use hd_rules::{CopyNo, PatronNo, TitleNo};
use std::alloc::{AllocError, Allocator, Global};

/// What takes down the page that is asked for. It has the room for it.
#[derive(Drop)]
pub struct PageReader {
    /// What is asked, by the catalogue's numbers.
    pub asked: Question<u32>,
    /// The page; without rows before the look.
    pub page: Page,
    /// Counts the work of a search for what depends on a command.
    meter: Meter,
}

impl PageReader {
    /// A reader that hasn't looked yet.
    ///
    /// # Errors
    /// There is no memory for a page.
    pub fn new(alloc: Global, asked: Question<u32>, meter: Meter) -> Result<PageReader, AllocError>
        ensures { IfOk result (λ reader. reader.asked ≡ asked) }
    {
        let page = Page::new(alloc)?;
        Ok(PageReader { asked, page, meter })
    }
}

impl<A: Allocator + Copy> Look<A> for PageReader {
    ghost fits = { λ reader k. IsNumberOf (facts_of k) (key_of reader.asked.list) reader.asked.key };

    ghost saw = { HasShown };

    #[tactic(auto, using(crate::proofs::Topics::topic_fits))]
    fn look(&mut self, journal: &Journal<A>) {
        let asked = self.asked;
        let topic = topic_of(&asked);
        show(journal, &asked, topic, &mut self.meter, &mut self.page);
    }
}

/// Shows the page that is asked for, which is of this topic.
fn show<A: Allocator + Copy>(
    journal: &Journal<A>,
    asked: &Question<u32>,
    topic: Topic,
    meter: &mut Meter,
    page: &mut Page,
)
    requires { IsTopicOf (facts_of journal.now.contents) topic }
    ensures shown { IsPageOf journal.now topic asked.now page.new }
    ensures work { IsWorkOf journal.now topic meter.old meter.new }
{
    let desk = journal.desk();
    let after = asked.after;
    match topic {
        Topic::Copy(copy) => show_copy(desk, copy, page),
        Topic::Queue(title) => show_queue(desk, title_of(desk, title), capped(after), page),
        Topic::Patron(patron) => show_patron(desk, patron_of(desk, patron), capped(after), page),
        Topic::Expired(day) => show_expired(desk, day, after, page),
        Topic::Turns(most) => show_turns(journal, after, most, page),
        Topic::Command(number) => show_command(journal, number, meter, page),
        Topic::Copies => show_copies(desk, asked, capped(after), page),
    }
}

/// The title of a number.
fn title_of<A: Allocator + Copy>(desk: &Desk<A>, number: u32) -> TitleNo
    requires { number < (facts desk.now).titles }
    ensures { result ≡ number }
{
    let _ = desk.catalogue().titles();
    TitleNo::new(number).unwrap()
}

/// The patron of a number.
fn patron_of<A: Allocator + Copy>(desk: &Desk<A>, number: u32) -> PatronNo
    requires { number < (facts desk.now).patrons }
    ensures { result ≡ number }
{
    let _ = desk.catalogue().patrons();
    PatronNo::new(number).unwrap()
}

/// The number, or the greatest of 32 bits where it is above that: no list has that many entries.
fn capped(number: u64) -> u32
    ensures { result ≡ capped number }
{
    match u32::try_from(number) {
        Ok(number) => number,
        Err(_) => u32::MAX,
    }
}

/// Shows the copy of a number.
fn show_copy<A: Allocator + Copy>(desk: &Desk<A>, number: u32, page: &mut Page)
    requires { number < (facts desk.now).copies }
    ensures { page.new ≡ record { rows = copy_row (desk_of desk.now) number ∷ []; next = None } }
{
    page.clear();
    let _ = desk.catalogue().copies();
    let copy = CopyNo::new(number).unwrap();
    let state = desk.copy(copy);
    page.put(&Row::Copy { copy, state });
}
