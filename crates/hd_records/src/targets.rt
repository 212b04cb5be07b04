//! What a cancellation may take back.
ghost use Rattle.std.specs.Prelude.{◌≡◌};
ghost use Rattle.hd_catalogue.specs.Contents.{facts_of};
ghost use Rattle.hd_rules.specs.Known.{IsKnownCancel};
ghost use Rattle.hd_records.specs.Titles.{title_of_cancel};
ghost use Rattle.hd_rules.specs.Target.{is_of_kind as fits_kind, is_target as fits};

use hd_catalogue::Catalogue;
use hd_rules::{Action, Cancel, Survivor, TerminalNo, TitleNo};
use std::alloc::Allocator;

/// The title that a cancellation names, or that of its copy.
pub(crate) fn title_of<A: Allocator + Copy>(catalogue: &Catalogue<A>, what: &Cancel) -> TitleNo
    requires { IsKnownCancel (facts_of catalogue.now) what.now }
    ensures { result ≡ title_of_cancel (facts_of catalogue.now) what.now }
{
    match what {
        Cancel::Checkout(copy) | Cancel::Checkin(copy) | Cancel::Renewal(copy) => {
            catalogue.title_of(*copy)
        }
        Cancel::Add(_, title) | Cancel::Delete(_, title) | Cancel::Change(_, title) => *title,
    }
}

/// Whether the survivor is one that such a cancellation by this terminal takes back.
pub(crate) fn is_target(terminal: TerminalNo, what: &Cancel, survivor: &Survivor) -> bool
    ensures { result ≡ fits terminal what.now survivor.now }
{
    survivor.terminal == terminal && is_of_kind(what, &survivor.command.action)
}

/// Whether the action is what such a cancellation takes back.
fn is_of_kind(what: &Cancel, action: &Action) -> bool
    ensures { result ≡ fits_kind what.now action.now }
{
    match what {
        Cancel::Checkout(copy) => match action {
            Action::Checkout { copy: lent, .. } => copy == lent,
            Action::OffLine { copy: lent, .. } => copy == lent,
            _ => false,
        },
        Cancel::Checkin(copy) => match action {
            Action::Checkin { copy: returned, .. } => copy == returned,
            _ => false,
        },
        Cancel::Renewal(copy) => match action {
            Action::Renewal { copy: renewed, .. } => copy == renewed,
            _ => false,
        },
        Cancel::Add(patron, title) => match action {
            Action::Add {
                patron: p,
                title: t,
                ..
            } => patron == p && title == t,
            _ => false,
        },
        Cancel::Delete(patron, title) => match action {
            Action::Delete {
                patron: p,
                title: t,
            } => patron == p && title == t,
            _ => false,
        },
        Cancel::Change(patron, title) => match action {
            Action::Change {
                patron: p,
                title: t,
                ..
            } => patron == p && title == t,
            _ => false,
        },
    }
}
