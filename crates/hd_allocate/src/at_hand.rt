//! Settling a copy by its title's queue and a branch's hold shelf.
ghost use Rattle.std.specs.Prelude.{◌≡◌};
ghost use Rattle.hd_rules.specs.Desk.{Desk};
ghost use Rattle.hd_rules.specs.Facts.{Facts};
ghost use Rattle.hd_allocate.specs.Choosing.{IsAt};
ghost use Rattle.hd_allocate.specs.Settling.{IsShelfOf, Settles};

use crate::choosing::choice;
use crate::facts::CopyFacts;
use crate::informant::Informant;
use crate::settled::Settled;
use crate::settling::settle_copy;
use hd_queue::QueueView;
use hd_rules::{BranchNo, CopyNo, Day, Hold, PatronNo, place_is_the_least_free};
use hd_shelf::Places;
use std::alloc::Allocator;

/// Where a copy goes that is handed in at a branch on a day, and the hold that gets it, if one does
/// (docs/desk-rules.md, "Settle").
///
/// The queue is that of the copy's title, the places are those of the branch's hold shelf. A tied copy whose
/// hold isn't in the queue is settled as one that nobody is to have.
pub fn settle<A: Allocator>(
    queue: &QueueView<'_, A>,
    places: &Places<A>,
    copy: &CopyFacts,
    at: BranchNo,
    day: Day,
) -> Settled
    ensures { (k : Facts) (d : Desk) → IsAt k d queue.now copy.now → IsShelfOf k d at places.now.copies
        → Settles k d copy.now at day result }
{
    place_is_the_least_free();
    let mut hand = AtHand {
        queue,
        copy,
        branch: at,
        place: places.least_free(),
    };
    settle_copy(&mut hand, copy.copy, at, day, &copy.state)
}

/// What is at hand where one copy is settled.
#[derive(Drop)]
struct AtHand<'a, 'q, A: Allocator> {
    /// The queue of the copy's title.
    queue: &'a QueueView<'q, A>,
    copy: &'a CopyFacts,
    branch: BranchNo,
    /// The least free place of the branch's hold shelf.
    place: u32,
}

impl<'a, 'q, A: Allocator> Informant for AtHand<'a, 'q, A> {
    ghost use Rattle.std.specs.Prelude.{◌≡◌, []};
    ghost use Rattle.hd_rules.specs.Ask.{outcome};
    ghost use Rattle.hd_allocate.specs.Settling.{AtHand, IsSo};

    ghost Source = { AtHand };

    ghost source = { λ hand. record {
      holds = hand.queue.now;
      copy = hand.copy.now;
      branch = hand.branch;
      place = hand.place;
    } };

    ghost is_at = { λ hand k d. IsSo k d hand };

    ghost knows_copy = { λ hand c. c ≡ hand.copy.copy };

    ghost knows_branch = { λ hand b. b ≡ hand.branch };

    /// No question is noted.
    ghost ending = { λ hand k d plan. (outcome k d plan, []) };

    ghost spare = { λ hand. 3 };

    fn home_of(&self, _copy: CopyNo) -> BranchNo {
        self.copy.home
    }

    fn hold_of(&mut self, _copy: CopyNo, patron: PatronNo) -> Option<Hold> {
        self.queue.hold_of(patron).copied()
    }

    fn choice_of(&mut self, _copy: CopyNo, branch: BranchNo, day: Day) -> Option<Hold> {
        choice(self.queue, self.copy, branch, day).copied()
    }

    fn place_at(&mut self, _branch: BranchNo) -> u32 {
        self.place
    }
}
