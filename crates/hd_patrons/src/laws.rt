//! Laws of patrons' files.
ghost use Rattle.std.specs.Prelude.{◌≡◌, ℕ, List};
ghost use Rattle.hd_rules.specs.Numbers.{PatronNo};
ghost use Rattle.hd_catalogue.specs.Contents.{Contents};
ghost use Rattle.hd_patrons.specs.Files.{IsAccepted, IsFirstBad};
ghost use Rattle.hd_patrons.specs.Stored.{Stored, texts_of};

use crate::fault::PatronsFault;
use hd_catalogue::Cause;

/// A file that is accepted has no bad line: its only fault can be that there is no memory for it. It says one
/// thing of each patron, and a file that is refused has one first bad line.
pub fn accepted_or_refused()
    ensures refused { (k : Contents) (all : List (List ℕ)) (stored : Stored) (fault : PatronsFault)
        → IsAccepted k all stored → IsFirstBad k all fault → fault.cause ≡ Cause.Memory }
    ensures one { (k : Contents) (all : List (List ℕ)) (stored other : Stored) → IsAccepted k all stored
        → IsAccepted k all other → (p : PatronNo) → texts_of stored p ≡ texts_of other p }
    ensures first { (k : Contents) (all : List (List ℕ)) (f g : PatronsFault) → IsFirstBad k all f
        → IsFirstBad k all g → ¬ (f.cause ≡ Cause.Memory) → ¬ (g.cause ≡ Cause.Memory) → f ≡ g }
{}
