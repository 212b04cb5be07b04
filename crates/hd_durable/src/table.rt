//! Where turns outlive a stop.

ghost use Rattle.std.specs.Prelude.{◌≡◌, ◌⊎◌, ◌++◌, ◌∷◌, [], IfErr, List, OnErr, OnOk};
ghost use Rattle.hd_rules.specs.Journal.{IsLegal, Turn};
ghost use Rattle.hd_catalogue.specs.Contents.{Contents, facts_of};
ghost use Rattle.hd_rules.specs.Messages.{IsKnownMessage};
ghost use Rattle.hd_journal.specs.Shown.{turn_shown};
ghost use Rattle.hd_journal.specs.declared.fault.WriteFault.{WriteFault};

use hd_journal::{TurnRef, WriteFault};

/// A table of turns that outlives a stop, as a file. It writes them with the names of a catalogue.
pub trait TurnTable {
    /// What its catalogue says.
    ghost contents: { Self → Contents };

    /// That it has just these turns, in this order, each committed.
    ghost holds: { Self → List Turn → Type 0 };

    /// That a stop at this moment may leave just these turns in it.
    ghost leaves: { Self → List Turn → Type 0 };

    /// Why it refused to commit this turn, by what it was before and is then.
    ghost refuses: { Self → Turn → Self → WriteFault → Type 0 };

    /// Commits one turn more, after all others, which are legal with it. What its message names, and its
    /// terminal, are of the catalogue. A stop after it leaves the turn.
    ///
    /// # Errors
    /// Why it can't be written. A stop may then leave the turn or not, and the table is to be used no more.
    fn commit(&mut self, turn: &TurnRef<'_>) -> Result<(), WriteFault>
        requires { IsKnownMessage (facts_of (contents self.old)) (turn_shown turn.now).message }
        ensures ok { OnOk result ((turns : List Turn)
            → IsLegal (facts_of (contents self.old)) (turns ++ turn_shown turn.now ∷ [])
            → holds self.old turns → holds self.new (turns ++ turn_shown turn.now ∷ [])) }
        ensures settled { OnOk result ((turns left : List Turn) → holds self.new turns
            → leaves self.new left → left ≡ turns) }
        ensures why { IfErr result (refuses self.old (turn_shown turn.now) self.new) }
        ensures err { OnErr result ((turns left : List Turn)
            → IsLegal (facts_of (contents self.old)) (turns ++ turn_shown turn.now ∷ [])
            → holds self.old turns → leaves self.new left
            → (left ≡ turns) ⊎ (left ≡ turns ++ turn_shown turn.now ∷ [])) }
        ensures contents { contents self.new ≡ contents self.old };
}
