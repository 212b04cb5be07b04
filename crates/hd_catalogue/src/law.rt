//! Which files are accepted, and what a catalogue without rows opens with.
ghost use Rattle.std.specs.Prelude.{◌≡◌, ℕ, List};
ghost use Rattle.hd_catalogue.specs.Contents.{Contents, WithoutRowsIsFresh};
ghost use Rattle.hd_catalogue.specs.Files.{IsAccepted, IsFirstBad};
ghost use Rattle.hd_catalogue.specs.Longer.{AnExtendedCatalogueGrows};

use crate::cause::{CatFault, Cause};

/// A file that is accepted has no bad line: its only fault can be that there is no memory for it. It says one
/// thing, and a file that is refused has one first bad line.
pub fn accepted_or_refused()
    ensures refused { (all : List (List ℕ)) (k : Contents) (fault : CatFault) → IsAccepted all k
        → IsFirstBad all fault → fault.cause ≡ Cause.Memory }
    ensures one { (all : List (List ℕ)) (k h : Contents) → IsAccepted all k → IsAccepted all h → k ≡ h }
    ensures first { (all : List (List ℕ)) (f g : CatFault) → IsFirstBad all f → IsFirstBad all g
        → ¬ (f.cause ≡ Cause.Memory) → ¬ (g.cause ≡ Cause.Memory) → f ≡ g }
{}

/// Where there are no rows and no number was given before, each copy is at home, and there are no holds.
pub fn without_rows_is_fresh()
    ensures { WithoutRowsIsFresh }
{}

/// A catalogue with more names after the last of each kind, whose new copies arrive after the rows of the
/// opening, is one that has grown.
pub fn an_extended_catalogue_grows()
    ensures { AnExtendedCatalogueGrows }
{}
