//! Laws of opening files.
ghost use Rattle.std.specs.Prelude.{◌≡◌, ℕ, List};
ghost use Rattle.hd_catalogue.specs.Contents.{Contents, OpeningRows};
ghost use Rattle.hd_catalogue.specs.Files.{lines_of};
ghost use Rattle.hd_opening.specs.Files.{AreInLimits, IsDigest, IsFirstBad, IsOpeningText, Tells};

use crate::cause::{OpeningCause, OpeningFault};

/// What was written is read: the text of an opening says the same rows and the same last number, by the same
/// catalogue and digest.
pub fn what_was_written_is_read()
    ensures { (k : Contents) (digest : List ℕ) (told : OpeningRows) (text : List ℕ) → IsDigest digest
        → AreInLimits told → IsOpeningText k digest told text → Tells k digest (lines_of text) told }
{}

/// A file says at most one thing, which is within its limits. A file that says something has no bad line: its
/// only fault can be that there is no memory for it.
pub fn told_or_refused()
    ensures one { (k : Contents) (digest : List ℕ) (all : List (List ℕ)) (told other : OpeningRows)
        → Tells k digest all told → Tells k digest all other → told ≡ other }
    ensures limits { (k : Contents) (digest : List ℕ) (all : List (List ℕ)) (told : OpeningRows)
        → Tells k digest all told → AreInLimits told }
    ensures refused { (k : Contents) (digest : List ℕ) (all : List (List ℕ)) (told : OpeningRows)
        (fault : OpeningFault) → Tells k digest all told → IsFirstBad k digest all fault
        → fault.cause ≡ OpeningCause.Memory }
{}
