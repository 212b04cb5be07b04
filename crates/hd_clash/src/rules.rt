//! The laws of the rules from which those of this crate follow.

ghost use Rattle.hd_clash.specs.Rules.{Rules};

use hd_rules::{
    choice_is_the_first_candidate, commands_keep_desks_sound, commands_rest_on_their_answers,
    place_is_the_least_free, tests_are_exact, the_first_dependent_is_the_least,
};

/// They hold. It does nothing.
pub(crate) fn rules()
    ensures { Rules }
{
    place_is_the_least_free();
    choice_is_the_first_candidate();
    tests_are_exact();
    commands_rest_on_their_answers();
    commands_keep_desks_sound();
    the_first_dependent_is_the_least();
}
