//! Turns by kind and outcome.
ghost use Rattle.std.specs.Prelude.{◌≡◌, Some, option_map};
ghost use Rattle.hd_rules.specs.Same.{same_line};
ghost use Rattle.hd_rules.specs.Messages.{is_query};
ghost use Rattle.hd_journal.specs.Shown.{turn_shown};
ghost use Rattle.hd_list_pages.specs.Tallies.{carry_same, ending_in, ending_of, kind_of, kind_of_action, no_tally};
ghost use Rattle.hd_list_pages.specs.Tallies.{no_turns, one_more, repeats, tallied, with_one};

use hd_http::{Tally, Turns};
use hd_journal::TurnRef;
use hd_rules::{Action, Asked, TurnReply, same_asked, tests_are_exact};

/// What a turn asked, as it is counted.
#[derive(Clone, Copy)]
pub(crate) enum Kind {
    /// A checkout.
    Checkout,
    /// A loan that a terminal made off line.
    OffLine,
    /// A return.
    Checkin,
    /// A renewal by a renew message.
    Renewal,
    /// A hold that is added.
    Add,
    /// A hold that is deleted.
    Delete,
    /// A hold that is changed.
    Change,
    /// A cancellation, of whatever kind.
    Cancel,
    /// A query of a copy.
    Item,
}

/// How a turn ended, as it is counted.
#[derive(Clone, Copy)]
pub(crate) enum Ending {
    /// It did what it asked, or showed it.
    Done,
    /// It was refused.
    Refused,
    /// It repeated an earlier one, and got its reply again.
    Repeated,
}

/// Of what kind a turn is.
pub(crate) fn kind_of(asked: &Asked) -> Kind
    ensures { result ≡ kind_of asked.now }
{
    match asked {
        Asked::Command(command) => kind_of_action(&command.action),
        Asked::Cancel(_) => Kind::Cancel,
        Asked::Item(_) => Kind::Item,
    }
}

/// Whether no change is asked for.
pub(crate) fn is_query(asked: &Asked) -> bool
    ensures { result ≡ is_query asked.now }
{
    match asked {
        Asked::Command(_) | Asked::Cancel(_) => false,
        Asked::Item(_) => true,
    }
}

/// Of what kind an action is.
fn kind_of_action(action: &Action) -> Kind
    ensures { result ≡ kind_of_action action.now }
{
    match action {
        Action::Checkout { .. } => Kind::Checkout,
        Action::OffLine { .. } => Kind::OffLine,
        Action::Checkin { .. } => Kind::Checkin,
        Action::Add { .. } => Kind::Add,
        Action::Delete { .. } => Kind::Delete,
        Action::Change { .. } => Kind::Change,
        Action::Renewal { .. } => Kind::Renewal,
    }
}

/// How a turn ended that repeats another or doesn't.
pub(crate) fn ending_in(is_repeat: bool, reply: &TurnReply) -> Ending
    ensures { result ≡ ending_in is_repeat reply.now }
{
    if is_repeat {
        Ending::Repeated
    } else {
        ending_of(reply)
    }
}

/// How a turn ended that repeats no other.
fn ending_of(reply: &TurnReply) -> Ending
    ensures { result ≡ ending_of reply.now }
{
    match reply {
        TurnReply::Refused(_) => Ending::Refused,
        TurnReply::Done { .. } | TurnReply::Cancelled { .. } | TurnReply::Item(_) => Ending::Done,
    }
}

/// No turns.
pub(crate) fn no_turns() -> Turns
    ensures { result ≡ no_turns }
{
    let none = no_tally();
    Turns {
        checkout: none,
        off_line: none,
        checkin: none,
        renewal: none,
        add: none,
        delete: none,
        change: none,
        cancel: none,
        item: none,
    }
}

/// None of a kind.
fn no_tally() -> Tally
    ensures { result ≡ no_tally }
{
    Tally {
        done: 0,
        refused: 0,
        repeated: 0,
    }
}

/// The tallies with one turn more, of this kind, that ended so.
pub(crate) fn tallied(kind: Kind, ending: Ending, turns: &Turns) -> Turns
    ensures { result ≡ tallied kind ending turns.now }
{
    match kind {
        Kind::Checkout => Turns {
            checkout: with_one(ending, turns.checkout),
            ..*turns
        },
        Kind::OffLine => Turns {
            off_line: with_one(ending, turns.off_line),
            ..*turns
        },
        Kind::Checkin => Turns {
            checkin: with_one(ending, turns.checkin),
            ..*turns
        },
        Kind::Renewal => Turns {
            renewal: with_one(ending, turns.renewal),
            ..*turns
        },
        Kind::Add => Turns {
            add: with_one(ending, turns.add),
            ..*turns
        },
        Kind::Delete => Turns {
            delete: with_one(ending, turns.delete),
            ..*turns
        },
        Kind::Change => Turns {
            change: with_one(ending, turns.change),
            ..*turns
        },
        Kind::Cancel => Turns {
            cancel: with_one(ending, turns.cancel),
            ..*turns
        },
        Kind::Item => Turns {
            item: with_one(ending, turns.item),
            ..*turns
        },
    }
}

/// A tally with one more that ended so.
fn with_one(ending: Ending, tally: Tally) -> Tally
    ensures { result ≡ with_one ending tally }
{
    match ending {
        Ending::Done => Tally {
            done: one_more(tally.done),
            ..tally
        },
        Ending::Refused => Tally {
            refused: one_more(tally.refused),
            ..tally
        },
        Ending::Repeated => Tally {
            repeated: one_more(tally.repeated),
            ..tally
        },
    }
}

/// One more, as far as numbers go.
fn one_more(number: u64) -> u64
    ensures { result ≡ one_more number }
{
    number.saturating_add(1)
}

/// Whether a turn repeats this one.
pub(crate) fn repeats(last: &TurnRef<'_>, turn: &TurnRef<'_>) -> bool
    ensures { result ≡ repeats (Some (turn_shown last.now)) (turn_shown turn.now).message }
{
    same_asked(&last.asked, &turn.asked) && carry_same(last.line, turn.line)
}

/// Whether two messages carried the same line.
fn carry_same(one: Option<&[u8]>, other: Option<&[u8]>) -> bool
    ensures { result ≡ carry_same (option_map (λ bytes. bytes.now) one.entry)
        (option_map (λ bytes. bytes.now) other.entry) }
{
    match (one, other) {
        (Some(one), Some(other)) => is_same_line(one, other),
        _ => false,
    }
}

/// Whether two lines are the same bytes.
fn is_same_line(one: &[u8], other: &[u8]) -> bool
    ensures { result ≡ same_line one.now other.now }
{
    tests_are_exact();
    one == other
}
