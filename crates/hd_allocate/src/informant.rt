//! Who is asked where a copy goes.
ghost use Rattle.std.specs.Prelude.{◌≡◌, ℕ, ◌+◌, ◌≤◌, List, Option, Result};
ghost use Rattle.hd_rules.specs.declared.holds.Hold.{Hold};
ghost use Rattle.hd_rules.specs.declared.cells.Cell.TheVariants.{Hold as HoldCell};
ghost use Rattle.hd_rules.specs.declared.questions.Question.{Question};
ghost use Rattle.hd_rules.specs.declared.questions.Question.TheVariants.{Value as ValueOf, Choice, Place};
ghost use Rattle.hd_rules.specs.declared.replies.Refusal.{Refusal};
ghost use Rattle.hd_rules.specs.Ask.{Ask, Done, Plan};
ghost use Rattle.hd_rules.specs.Desk.{Desk};
ghost use Rattle.hd_rules.specs.Facts.{Facts};

use hd_rules::{BranchNo, CopyNo, Day, Hold, PatronNo};

/// Who answers what settling asks: a desk, which may note each question, or what is known of one copy at one
/// branch.
pub trait Informant {
    /// What its answers come from, which stays the same.
    ghost Source: { Type 0 };

    ghost source: { Self → Self.Source };

    /// The desks at which its answers are right.
    ghost is_at: { Self.Source → Facts → Desk → Type 0 };

    /// The copies and the branches that it can be asked about.
    ghost knows_copy: { Self.Source → ℕ → Type 0 };

    ghost knows_branch: { Self.Source → ℕ → Type 0 };

    /// How a plan ends that goes on from here at a desk, and what was asked until then.
    ghost ending: { Self → Facts → Desk → Plan → Result Done Refusal × List Question };

    /// How many more questions it takes.
    ghost spare: { Self → ℕ };

    /// The copy's home.
    fn home_of(&self, copy: CopyNo) -> BranchNo
        requires { knows_copy (source self.now) copy }
        ensures { (k : Facts) (d : Desk) → is_at (source self.now) k d → result ≡ k.home copy };

    /// Which hold of the copy's title has the patron?
    fn hold_of(&mut self, copy: CopyNo, patron: PatronNo) -> Option<Hold>
        requires copy { knows_copy (source self.old) copy }
        requires spare { 1 ≤ spare self.old }
        ensures answer { (k : Facts) (d : Desk) → is_at (source self.old) k d
            → (rest : Option Hold → Plan)
            → ending self.old k d (Ask (ValueOf (HoldCell (k.title_of copy) patron)) rest)
            ≡ ending self.new k d (rest result) }
        ensures source { source self.new ≡ source self.old }
        ensures spare { spare self.old ≤ spare self.new + 1 };

    /// Which hold comes first for the copy, at the branch on the day?
    fn choice_of(&mut self, copy: CopyNo, branch: BranchNo, day: Day) -> Option<Hold>
        requires copy { knows_copy (source self.old) copy }
        requires branch { knows_branch (source self.old) branch }
        requires spare { 1 ≤ spare self.old }
        ensures answer { (k : Facts) (d : Desk) → is_at (source self.old) k d
            → (rest : Option Hold → Plan)
            → ending self.old k d (Ask (Choice copy branch day) rest) ≡ ending self.new k d (rest result) }
        ensures source { source self.new ≡ source self.old }
        ensures spare { spare self.old ≤ spare self.new + 1 };

    /// Which is the least free place of the branch's hold shelf?
    fn place_at(&mut self, branch: BranchNo) -> u32
        requires branch { knows_branch (source self.old) branch }
        requires spare { 1 ≤ spare self.old }
        ensures answer { (k : Facts) (d : Desk) → is_at (source self.old) k d → (rest : ℕ → Plan)
            → ending self.old k d (Ask (Place branch) rest) ≡ ending self.new k d (rest result) }
        ensures source { source self.new ≡ source self.old }
        ensures spare { spare self.old ≤ spare self.new + 1 };
}
