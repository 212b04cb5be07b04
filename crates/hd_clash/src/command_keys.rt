//! What a command asks about.
#![tactic(auto)]

ghost use Rattle.std.specs.Prelude.{◌≡◌};
ghost use Rattle.hd_rules.specs.Known.{IsKnownAction};
ghost use Rattle.hd_catalogue.specs.Contents.{facts_of};
ghost use Rattle.hd_clash.specs.CommandKeys.{keys_of_action, keys_of_command, title_alone};

use hd_catalogue::Catalogue;
use hd_rules::{Action, BranchNo, Command, PatronNo, TitleNo};
use std::alloc::Allocator;

/// The keys that the questions of a command can have. They are known before it is carried out: the title that
/// it names or that of its copy, for a checkout the patron, for a return the branch.
#[derive(Clone, Copy, PartialEq, Eq, Debug)]
pub struct CommandKeys {
    /// The title.
    pub title: TitleNo,
    /// The patron whose room a checkout asks for.
    pub patron: Option<PatronNo>,
    /// The branch at which a return asks for a place on the hold shelf.
    pub branch: Option<BranchNo>,
}

impl CommandKeys {
    /// The title alone.
    fn title_alone(title: TitleNo) -> CommandKeys
        ensures { result ≡ title_alone title }
    {
        CommandKeys {
            title,
            patron: None,
            branch: None,
        }
    }

    /// What the questions of the action can be about.
    pub(crate) fn of_action<A: Allocator + Copy>(
        catalogue: &Catalogue<A>,
        action: &Action,
    ) -> CommandKeys
        requires { IsKnownAction (facts_of catalogue.now) action.now }
        ensures { result ≡ keys_of_action (facts_of catalogue.now) action.now }
    {
        match action {
            Action::Checkout { patron, copy, .. } => CommandKeys {
                title: catalogue.title_of(*copy),
                patron: Some(*patron),
                branch: None,
            },
            Action::Checkin { copy, branch } => CommandKeys {
                title: catalogue.title_of(*copy),
                patron: None,
                branch: Some(*branch),
            },
            Action::OffLine { copy, .. } | Action::Renewal { copy, .. } => {
                CommandKeys::title_alone(catalogue.title_of(*copy))
            }
            Action::Add { title, .. }
            | Action::Delete { title, .. }
            | Action::Change { title, .. } => CommandKeys::title_alone(*title),
        }
    }

    /// What the questions of the command can be about.
    pub fn of<A: Allocator + Copy>(catalogue: &Catalogue<A>, command: &Command) -> CommandKeys
        requires { IsKnownAction (facts_of catalogue.now) command.now.action }
        ensures { result ≡ keys_of_command (facts_of catalogue.now) command.now }
    {
        CommandKeys::of_action(catalogue, &command.action)
    }
}
