//! Laws. Each is the contract of a function without effect; its statement stands in `specs/Laws.antt`.
ghost use Rattle.hd_list_pages.specs.Laws.{RepeatsAreAnsweredAgain};

use hd_rules::tests_are_exact;

/// A turn is counted as a repeat where the turn machine answered it again, and only there.
pub fn repeats_are_answered_again()
    ensures { RepeatsAreAnsweredAgain }
{
    tests_are_exact();
}
