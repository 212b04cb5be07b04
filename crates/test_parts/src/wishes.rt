//! What terminals ask, by names of the library that is played in.
ghost use Rattle.std.specs.Prelude.{◌<◌, IfSome};
ghost use Rattle.hd_rules.specs.Facts.{Facts};
ghost use Rattle.hd_rules.specs.Known.{IsKnown, IsKnownAction};
ghost use Rattle.test_parts.specs.Wishes.{IsOf};

use crate::library::present;
use hd_catalogue::Catalogue;
use hd_date::Day;
use hd_journal::{Ask, Journal, OwnedAsk, SeatNo};
use hd_rules::{
    Action, Asked, BranchNo, Cancel, Command, CopyNo, HoldKind, PatronNo, TerminalNo, TitleNo,
};
use std::alloc::Global;

/// After how many days a loan is due that took place while the terminal was off line.
const OFF_LINE_DAYS: u32 = 9;

/// What a terminal is to ask, by the numbers of a catalogue.
#[derive(Clone, Copy)]
pub(crate) struct Wish {
    pub(crate) terminal: TerminalNo,
    pub(crate) asked: Asked,
}

/// A terminal, and whom and what it asks about.
#[derive(Clone, Copy)]
pub(crate) struct Names {
    pub(crate) terminal: &'static [u8],
    pub(crate) patron: &'static [u8],
    pub(crate) title: &'static [u8],
    pub(crate) copy: &'static [u8],
}

/// The first terminal for the first patron, about `a1`, a copy of `ta`.
pub(crate) const ONE: Names = Names {
    terminal: b"t1",
    patron: b"p1",
    title: b"ta",
    copy: b"a1",
};

/// What is asked, at `north`.
#[derive(Clone, Copy)]
pub(crate) enum Deed {
    /// The hold of any copy of the title by the patron.
    Hold,
    /// Its cancellation.
    NoHold,
    /// Its deletion.
    Delete,
    /// A checkout of the copy by the patron.
    Checkout,
    /// A checkout that took place while the terminal was off line.
    OffLine,
    /// The cancellation of a checkout.
    NoCheckout,
    /// A return of the copy.
    Checkin,
    /// A query of the copy.
    Item,
}

impl Names {
    /// The wish that they are for, by the numbers of a catalogue. None where it lacks one of them.
    pub(crate) fn wish(&self, catalogue: &Catalogue, deed: Deed) -> Option<Wish>
        ensures { IfSome result (IsOf catalogue.now) }
    {
        let terminal = catalogue.terminal(self.terminal, b"pw")?;
        let day = present()?.day();
        let numbers = Numbers {
            patron: catalogue.patron(self.patron)?,
            title: catalogue.title(self.title)?,
            copy: catalogue.copy(self.copy)?,
            branch: catalogue.branch(b"north")?,
            day,
            due: day.add_days(OFF_LINE_DAYS)?,
        };
        Some(Wish {
            terminal,
            asked: numbers.asked(deed),
        })
    }
}

/// Numbers of a catalogue, and days.
#[derive(Clone, Copy)]
struct Numbers {
    patron: PatronNo,
    title: TitleNo,
    copy: CopyNo,
    branch: BranchNo,
    day: Day,
    due: Day,
}

impl Numbers {
    /// What is asked of them.
    fn asked(self, deed: Deed) -> Asked
        ensures { (k : Facts) → self.patron < k.patrons → self.title < k.titles → self.copy < k.copies
            → self.branch < k.branches → IsKnown k result }
    {
        let Numbers {
            patron,
            title,
            copy,
            branch,
            day,
            due,
        } = self;
        match deed {
            Deed::Hold => command(
                day,
                Action::Add {
                    patron,
                    title,
                    kind: HoldKind::Any,
                    pickup: branch,
                    expiry: None,
                },
            ),
            Deed::NoHold => Asked::Cancel(Cancel::Add(patron, title)),
            Deed::Delete => command(day, Action::Delete { patron, title }),
            Deed::Checkout => command(
                day,
                Action::Checkout {
                    patron,
                    copy,
                    may_renew: false,
                },
            ),
            Deed::OffLine => command(day, Action::OffLine { patron, copy, due }),
            Deed::NoCheckout => Asked::Cancel(Cancel::Checkout(copy)),
            Deed::Checkin => command(day, Action::Checkin { copy, branch }),
            Deed::Item => Asked::Item(copy),
        }
    }
}

/// A command of a day.
fn command(day: Day, action: Action) -> Asked
    ensures { (k : Facts) → IsKnownAction k action → IsKnown k result }
{
    Asked::Command(Command { day, action })
}

/// Takes the turn of a terminal alone: whether it changes something. None where it isn't taken.
pub(crate) fn take(
    alloc: Global,
    journal: &mut Journal,
    names: &Names,
    deed: Deed,
    line: Option<&[u8]>,
) -> Option<bool> {
    let wish = names.wish(journal.desk().catalogue(), deed)?;
    let ask = Ask::new(SeatNo::new(0), wish.terminal, wish.asked, line);
    let own = OwnedAsk::of(alloc, &ask).ok()?;
    match journal.take_new(own) {
        Ok(new) => Some(new.is_changing),
        Err(_) => None,
    }
}
