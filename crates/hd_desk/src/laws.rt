//! What is known of an accepted command's changes.

ghost use Rattle.hd_desk.specs.Laws.{CommandLaws};

use hd_rules::{commands_keep_desks_sound, commands_rest_on_their_answers};

/// The laws from which the promises about a command's changes follow. It does nothing.
pub(crate) fn laws()
    ensures { CommandLaws }
{
    commands_rest_on_their_answers();
    commands_keep_desks_sound();
}
