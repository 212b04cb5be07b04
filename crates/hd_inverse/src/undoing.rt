//! Taking changes back.
ghost use Rattle.std.specs.Prelude.{◌≡◌, MatchResult, OnErr, length};
ghost use Rattle.hd_rules.specs.Desk.{take_back};
ghost use Rattle.hd_rules.specs.Sound.{EachBackIsFit};
ghost use Rattle.hd_catalogue.specs.Contents.{facts_of};
ghost use Rattle.hd_inverse.specs.Cells.{AreApart, AreKnownChanges, HaveRoom};
ghost use Rattle.hd_inverse.specs.Work.{after_writes};

use crate::cells::Cells;
use hd_meter::{Count, Meter};
use hd_rules::Change;
use std::alloc::AllocError;

/// Takes changes back: each of their cells gets its old value, the last one first, and every other cell
/// stays. The meter counts one cell written per change.
///
/// The changes are of distinct cells, and each of the writes leaves a fit desk. It is out of
/// memory only where there is less room than `ready` makes, and then changes neither a cell nor the meter.
pub fn undo<C: Cells>(
    cells: &mut C,
    changes: &[Change],
    meter: &mut Meter,
) -> Result<(), AllocError>
    requires known { AreKnownChanges (facts_of (C.contents cells.old)) changes.now }
    requires apart { AreApart changes.now }
    requires fit { EachBackIsFit (facts_of (C.contents cells.old)) changes.now (C.desk cells.old) }
    ensures desk { MatchResult result (λ _. C.desk cells.new ≡ take_back changes.now (C.desk cells.old))
        (λ _. C.desk cells.new ≡ C.desk cells.old) }
    ensures full { OnErr result (HaveRoom (C.has_room cells.old) (length changes.now) changes.now → ⊥) }
    ensures contents { C.contents cells.new ≡ C.contents cells.old }
    ensures counted { MatchResult result (λ _. meter.new ≡ after_writes (length changes.now) meter.old)
        (λ _. meter.new ≡ meter.old) }
{
    cells.ready(changes)?;
    put_back(cells, changes, meter);
    Ok(())
}

/// Puts the old values back, where there is room for each.
fn put_back<C: Cells>(cells: &mut C, changes: &[Change], meter: &mut Meter)
    requires known { AreKnownChanges (facts_of (C.contents cells.old)) changes.now }
    requires apart { AreApart changes.now }
    requires room { HaveRoom (C.has_room cells.old) (length changes.now) changes.now }
    requires fit { EachBackIsFit (facts_of (C.contents cells.old)) changes.now (C.desk cells.old) }
    ensures desk { C.desk cells.new ≡ take_back changes.now (C.desk cells.old) }
    ensures contents { C.contents cells.new ≡ C.contents cells.old }
    ensures counted { meter.new ≡ after_writes (length changes.now) meter.old }
{
    for change in changes.iter().rev() {
        cells.put(change.cell, change.old);
        meter.add(Count::Written);
    }
}
