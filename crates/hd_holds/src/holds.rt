//! Holds, a queue for each title.
#![tactic(auto, unfolding(crate::specs::Held::patron_hold, crate::specs::Held::room_of))]

ghost use Rattle.std.specs.Prelude.{[], ◌≡◌, ◌+◌, ◌<◌, ◌≤◌, ◌==◌, ◌&&◌, ℕ, if◌then◌else◌, IfOk, None, OnErr};
ghost use Rattle.std.specs.Prelude.{◌^◌, ◌↔◌, IsTrue, OnOk, Option, is_some, length, slice_set};
ghost use Rattle.std.specs.Arc.{arc_value};
ghost use Rattle.std.specs.List.{AllByRecursion};
ghost use Rattle.std.specs.Option.{ForSome};
ghost use Rattle.hd_rules.specs.Choose.{count_below, position};
ghost use Rattle.hd_rules.specs.Desk.{Desk};
ghost use Rattle.hd_rules.specs.Known.{IsKnownHeld};
ghost use Rattle.hd_rules.specs.Sound.{AreNamed, StampsApart};
ghost use Rattle.hd_queue.specs.Holds.{HasNoStamp, HasPatronsOnce, IsInOrder, hold_of, without};
ghost use Rattle.hd_holds.specs.Held.{AreKnown, AreOfPatrons, AreQueues, IsQueue, IsStampOf};
ghost use Rattle.hd_holds.specs.Held.{IsWelcome, facts, patron_hold};
ghost use Rattle.hd_holds.specs.Held.{queue_of, queue_room, room_of, with_held};
ghost use Rattle.hd_holds.specs.HeldTitles.{AreHeldBy};
ghost use Rattle.hd_holds.specs.Places.{HasOneMore};

use crate::held_lists::HeldLists;
use crate::held_title::HeldTitle;
use hd_catalogue::Catalogue;
use hd_queue::{Queue, QueueView, queues_stay_in_order};
use hd_rules::{Hold, PatronNo, TitleNo};
use std::alloc::{AllocError, Allocator, Global};
use std::marker::Model;
use std::sync::Arc;

/// The holds of all titles of a library: at most one a title and patron, those of a title in order of stamp
/// (docs/desk-rules.md, "State").
///
/// Only `open` and `ready` take memory: a title four bytes, a queue once room is made for a hold of it, and a
/// hold sixteen more in its patron's list, for which room is made in all lists at once, for some holds ahead.
#[derive(Drop)]
pub struct Holds<A: Allocator = Global> {
    catalogue: Arc<Catalogue<A>, A>,
    /// The place of each title's queue among the queues, by the title's number, or 0 where it has none.
    places: Vec<u32, A>,
    /// First a queue without holds, which is used for titles that have no queue, and then the titles' own.
    queues: Vec<Queue<A>, A>,
    /// The titles of which each patron has a hold.
    held: HeldLists<A>,
}

impl<A: Allocator> Model for Holds<A> {
    ghost use Rattle.std.specs.Arc.{arc_value};
    ghost use Rattle.hd_catalogue.specs.Contents.{facts_of};
    ghost use Rattle.hd_holds.specs.HoldsValue.{HoldsValue};
    ghost use Rattle.hd_holds.specs.Held.{patron_hold};
    ghost use Rattle.hd_holds.specs.HeldListsValue.{AreListed};
    ghost use Rattle.hd_holds.specs.Places.{IsPlaced, kept};

    ghost Value = { HoldsValue };

    ghost view = { λ h. kept (arc_value h.catalogue) h.places.items h.queues.items h.held.room };

    ghost invariant = { λ h. IsPlaced (facts_of (arc_value h.catalogue)) h.places.items h.queues.items
        × AreListed h.held
        (patron_hold (kept (arc_value h.catalogue) h.places.items h.queues.items h.held.room)) };
}

impl<A: Allocator + Copy> Holds<A> {
    /// No holds of any title of the catalogue.
    pub fn open(alloc: A, catalogue: Arc<Catalogue<A>, A>) -> Result<Holds<A>, AllocError>
        ensures contents { IfOk result (λ made. made.contents ≡ arc_value catalogue) }
        ensures none { IfOk result (λ made. patron_hold made ≡ (λ t p. None)) }
    {
        let places = vec![in alloc; 0; catalogue.titles()]?;
        let mut queues = Vec::new(alloc);
        queues.push(Queue::new(alloc))?;
        let held = HeldLists::new(alloc, catalogue.patrons())?;
        Ok(Holds {
            catalogue,
            places,
            queues,
            held,
        })
    }

    /// The patron's hold of the title, or `None` where there is none.
    ///
    /// Each hold is kept under its own patron, and no two holds of a title have the same stamp.
    pub fn get(&self, title: TitleNo, patron: PatronNo) -> Option<Hold>
        requires { title < (facts self.now).titles }
        ensures held { result ≡ patron_hold self.now title patron }
        ensures known { IsKnownHeld (facts self.now) result }
        ensures named { AreNamed (patron_hold self.now) }
        ensures apart { StampsApart (patron_hold self.now) }
    {
        self.queue(title).hold_of(patron)
    }

    /// Makes room for that many puts at the title, whatever is taken between.
    ///
    /// It is out of memory only where there was less room, and then changes nothing.
    pub fn ready(&mut self, title: TitleNo, more: usize) -> Result<(), AllocError>
        requires { title < (facts self.old).titles }
        ensures held { patron_hold self.new ≡ patron_hold self.old }
        ensures contents { self.new.contents ≡ self.old.contents }
        ensures ok { OnOk result (more ≤ room_of self.new title) }
        ensures err { OnErr result (self.new ≡ self.old) }
        ensures full { OnErr result (room_of self.old title < more) }
        ensures room { (t : ℕ) → room_of self.old t ≤ room_of self.new t }
    {
        let room = self.held.room();
        self.held.ready(more)?;
        if let Err(wanting) = self.ready_queue(title, more) {
            self.held.give_up(room);
            return Err(wanting);
        }
        Ok(())
    }

    /// Makes room for that many puts in the title's queue.
    fn ready_queue(&mut self, title: TitleNo, more: usize) -> Result<(), AllocError>
        requires { title < (facts self.old).titles }
        ensures held { patron_hold self.new ≡ patron_hold self.old }
        ensures contents { self.new.contents ≡ self.old.contents }
        ensures lists { self.new.room ≡ self.old.room }
        ensures ok { OnOk result (more ≤ queue_room self.new title) }
        ensures err { OnErr result (self.new ≡ self.old) }
        ensures full { OnErr result (queue_room self.old title < more) }
        ensures room { (t : ℕ) → queue_room self.old t ≤ queue_room self.new t }
    {
        let at = title.number() as usize;
        let place = self.places[at];
        if place > 0 {
            self.queues[place as usize].ready(more)
        } else if more > 0 {
            add_queue(&mut self.places, &mut self.queues, at, more)
        } else {
            Ok(())
        }
    }

    /// The patron's hold of the title becomes this, or ends. It takes no memory.
    ///
    /// A new hold needs room at the title. It is the patron's own, and no other patron's hold of the title
    /// has its stamp.
    pub fn put(&mut self, title: TitleNo, patron: PatronNo, new: &Option<Hold>)
        requires title { title < (facts self.old).titles }
        requires patron { patron < (facts self.old).patrons }
        requires known { IsKnownHeld (facts self.old) new.now }
        requires room { ForSome new.now (λ hold. 0 < room_of self.old title) }
        requires fit { IsWelcome (patron_hold self.old) title patron new.now }
        ensures held { patron_hold self.new
            ≡ (λ t p. if (title == t) && (patron == p) then new.now else patron_hold self.old t p) }
        ensures contents { self.new.contents ≡ self.old.contents }
        ensures room { (t : ℕ) → room_of self.old t ≤ room_of self.new t + 1 }
    {
        queues_stay_in_order();
        let place = self.places[title.number() as usize];
        // A title without a queue has no hold that could end, and no room for one.
        if place > 0 {
            let old = replace(&mut self.queues[place as usize], patron, new);
            self.held.take_of(title, &old);
            self.held.put_of(title, new);
        }
    }

    /// The titles of which the patron has a hold, by rising stamp, those of one stamp by title number. They
    /// are found by halving, without a walk over the titles.
    pub fn of_patron(&self, patron: PatronNo) -> &[HeldTitle]
        ensures titles { AreHeldBy (patron_hold self.now) patron result.now }
        ensures known { AllByRecursion (λ held. held.title < (facts self.now).titles) result.now }
    {
        self.held.of(patron)
    }

    /// Whether a hold of the title has this stamp. It is found without a walk over the queue.
    pub fn has_stamp(&self, title: TitleNo, stamp: u64) -> bool
        requires { title < (facts self.now).titles }
        ensures { IsTrue result ↔ IsStampOf stamp (patron_hold self.now title) }
    {
        self.queue(title).has_stamp(stamp)
    }

    /// The position that a hold with this stamp has in the title's queue, from 1.
    pub fn position(&self, title: TitleNo, stamp: u64) -> u64
        requires { title < (facts self.now).titles }
        ensures { (d : Desk) → d.hold ≡ patron_hold self.now
            → result ≡ position (facts self.now) d title stamp }
    {
        self.queue(title).count_before(stamp) as u64 + 1
    }

    /// How many holds the title has.
    pub fn count(&self, title: TitleNo) -> u32
        requires { title < (facts self.now).titles }
        ensures { result
            ≡ count_below (λ p. is_some (patron_hold self.now title p)) (facts self.now).patrons }
    {
        self.queue(title).len() as u32
    }

    /// How many titles there are, each with its queue.
    pub fn titles(&self) -> usize
        ensures count { result ≡ (facts self.now).titles }
        ensures queues { AreQueues (facts self.now) self.now.queues }
    {
        self.places.len()
    }

    /// The title's queue. The stamps rise, and no patron has two holds.
    pub fn view(&self, title: TitleNo) -> QueueView<'_, A>
        requires { title < (facts self.now).titles }
        ensures queue { result ≡ (queue_of self.now.queues title).holds }
        ensures holds { (p : ℕ) → patron_hold self.now title p ≡ hold_of result p }
        ensures ordered { IsInOrder result }
        ensures once { HasPatronsOnce result }
        ensures patrons { AreOfPatrons (facts self.now).patrons result }
        ensures known { AreKnown (facts self.now) result }
    {
        self.queue(title).view()
    }

    /// The title's queue, as it is kept.
    fn queue(&self, title: TitleNo) -> &Queue<A>
        requires { title < (facts self.now).titles }
        ensures holds { result.now.holds ≡ (queue_of self.now.queues title).holds }
        ensures queue { IsQueue (facts self.now) (queue_of self.now.queues title).holds }
        ensures all { AreQueues (facts self.now) self.now.queues }
    {
        let place = self.places[title.number() as usize];
        &self.queues[place as usize]
    }
}

/// Puts a queue without holds, with room for that many, after the others, at the place of this title.
///
/// Out of memory, it changes nothing.
fn add_queue<A: Allocator + Copy>(
    places: &mut Vec<u32, A>,
    queues: &mut Vec<Queue<A>, A>,
    title: usize,
    more: usize,
) -> Result<(), AllocError>
    requires title { title < length places.old.items }
    requires few { length queues.old.items < 2 ^ 32 }
    ensures places { OnOk result (places.new.items
        ≡ slice_set places.old.items title (length queues.old.items)) }
    ensures queues { OnOk result (HasOneMore more queues.old.items queues.new.items) }
    ensures err_places { OnErr result (places.new.items ≡ places.old.items) }
    ensures err_queues { OnErr result (queues.new.items ≡ queues.old.items) }
{
    let mut queue = Queue::new(*queues.allocator());
    queue.ready(more)?;
    let place = queues.len() as u32;
    queues.push(queue)?;
    places[title] = place;
    Ok(())
}

/// Takes a patron's hold out of a queue, and puts the new one in at the place of its stamp, if there is one.
/// Answers the old one.
fn replace<A: Allocator>(queue: &mut Queue<A>, patron: PatronNo, new: &Option<Hold>) -> Option<Hold>
    requires room { ForSome new.now (λ hold. 0 < queue.old.room) }
    requires patron { ForSome new.now (λ hold. hold.patron ≡ patron) }
    requires stamp { ForSome new.now (λ hold. HasNoStamp hold.stamp (without queue.old.holds patron)) }
    ensures old { result ≡ hold_of queue.old.holds patron }
    ensures holds { queue.new.holds ≡ with_held queue.old.holds patron new.now }
    ensures room { queue.old.room ≤ queue.new.room + 1 }
{
    let old = queue.take(patron);
    if let Some(hold) = new {
        queue.put_at_stamp(*hold);
    }
    old
}
