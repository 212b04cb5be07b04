//! Laws. Each is the contract of a function without a body; its statement is in `specs/Laws.antt`.

ghost use Rattle.hd_rules.specs.Laws.{ACarriedDeskIsSound, AFreshDeskMayOpen, AKeptHoldIsAtItsPickup};
ghost use Rattle.hd_rules.specs.Laws.{ChargedAreCounted, KeptAndWaitingAreTheHolds, ListedOnce};
ghost use Rattle.hd_rules.specs.Laws.{RowsTellASoundDesk};
ghost use Rattle.hd_rules.specs.Laws.{AJournalMayGrow, ALegalJournalIsTheRunOfItsSurvivors};
ghost use Rattle.hd_rules.specs.Laws.{ChoiceIsTheFirstCandidate};
ghost use Rattle.hd_rules.specs.Laws.{CommandsKeepDesksSound, CommandsRestOnTheirAnswers};
ghost use Rattle.hd_rules.specs.Laws.{EachTurnIsDetermined, KnownRowsTellAKnownDesk, LegalJournalsGoOn};
ghost use Rattle.hd_rules.specs.Laws.{PlaceIsTheLeastFree};
ghost use Rattle.hd_rules.specs.Laws.{TestsAreExact, TheFirstDependentIsTheLeast, TheHeadline};
ghost use Rattle.hd_rules.specs.Laws.{TheTargetIsTheNewest, UndoingIsTheRunWithout};

/// For every list of the terminals' messages, a command accepted and then cancelled at once leaves the desk
/// as before; a cancellation is accepted exactly when no surviving later command depends on its target, and
/// then the desk is that of the run without it, and all surviving replies stay; otherwise it names the first
/// dependent command and changes nothing; a repeated message changes nothing.
pub fn headline()
    ensures { TheHeadline }
{}

/// After a legal list of turns the desk is the run of the survivors; their numbers rise, none above the last
/// one given; each is accepted in that run, with the reply that it got, and has exactly one record. Each
/// reply is one to its message, and names numbers of the catalogue where the messages do.
pub fn a_legal_journal_is_the_run_of_its_survivors()
    ensures { ALegalJournalIsTheRunOfItsSurvivors }
{}

/// A legal list of turns goes on by one more exactly where that has the machine's
/// reply; whatever the messages are, there is one legal list of turns with them.
pub fn legal_journals_go_on()
    ensures { LegalJournalsGoOn }
{}

/// Each turn of the machine has the one reply, and leaves the one state, that `turn_of` computes.
pub fn each_turn_is_determined()
    ensures { EachTurnIsDetermined }
{}

/// A target is found exactly where there is one, and it is the newest. Its number splits the survivors: those
/// with smaller numbers are the older ones, and those with other numbers are all but it.
pub fn the_target_is_the_newest()
    ensures { TheTargetIsTheNewest }
{}

/// Where the search among the later survivors finds one, it is the least that depends; where it finds none,
/// none depends. The same is found by one walk over them, at the desks with the command and without it.
pub fn the_first_dependent_is_the_least()
    ensures { TheFirstDependentIsTheLeast }
{}

/// Taking back the changes of a command on which no later one depends gives the run without
/// it, through fit desks; there each other survivor ends as it did, with the same record but
/// for what is noted with its questions.
pub fn undoing_is_the_run_without()
    ensures { UndoingIsTheRunWithout }
{}

/// Where a command's questions are answered alike at two desks, it ends alike and asks the same. Answers read
/// from notes are equal exactly where the desks' answers are. Each cell that a command writes is among its
/// questions.
pub fn commands_rest_on_their_answers()
    ensures { CommandsRestOnTheirAnswers }
{}

/// A command makes at most four changes, of distinct cells, each to another value; from a sound desk they
/// lead through fit ones to a sound one, so every desk that a legal run leads to is sound. A command that
/// names numbers of the catalogue writes and replies such again.
pub fn commands_keep_desks_sound()
    ensures { CommandsKeepDesksSound }
{}

/// A choice is a candidate that no other comes before, and at a fit desk the
/// only one; there is none only where nobody's hold is a candidate.
pub fn choice_is_the_first_candidate()
    ensures { ChoiceIsTheFirstCandidate }
{}

/// A branch's place is the least number from 1 at which no copy stands on its hold shelf, and it is no other
/// number.
pub fn place_is_the_least_free()
    ensures { PlaceIsTheLeastFree }
{}

/// The tests of equality by which the rules speak are exact.
pub fn tests_are_exact()
    ensures { TestsAreExact }
{}

/// What is carried over to another catalogue, by names, is as sound there as it was.
pub fn a_carried_desk_is_sound()
    ensures { ACarriedDeskIsSound }
{}

/// With each copy at home, no holds and no number given a journal may open.
pub fn a_fresh_desk_may_open()
    ensures { AFreshDeskMayOpen }
{}

/// Rows that say nothing twice give a desk that a journal may open with.
pub fn rows_tell_a_sound_desk()
    ensures { RowsTellASoundDesk }
{}

/// Rows that name things of the catalogue give a desk that names such things.
pub fn known_rows_tell_a_known_desk()
    ensures { KnownRowsTellAKnownDesk }
{}

/// The list of a patron's loans has each copy of the catalogue that is on loan to them once, by rising
/// number; that of their holds each hold once, by rising stamp, and of equal stamps by title number. No other
/// list does.
pub fn listed_once()
    ensures { ListedOnce }
{}

/// A patron's loans are as many as the count that says whether they have room.
pub fn charged_are_counted()
    ensures { ChargedAreCounted }
{}

/// A patron's kept holds and waiting ones are their holds, each once.
pub fn kept_and_waiting_are_the_holds()
    ensures { KeptAndWaitingAreTheHolds }
{}

/// In a sound desk the copy of a kept hold stands on the hold shelf of its pickup, for the patron.
pub fn a_kept_hold_is_at_its_pickup()
    ensures { AKeptHoldIsAtItsPickup }
{}

/// A list of turns that ask only about things of one catalogue is legal under a catalogue with more names
/// after these exactly where it is legal under the first. It leads to the same state but for what is new,
/// with the same records.
pub fn a_journal_may_grow()
    ensures { AJournalMayGrow }
{}
