//! What distinguishes one hall from another.

ghost use Rattle.hd_hall.specs.Houses.{nothing};
ghost use Rattle.hd_journal.specs.Openings.{Opening};

use std::marker::Brand;
use std::sync::ledger::Ledger;

/// A hall's ledger, which counts its turns, its catalogue, and the turns that its journal had before.
///
/// All parts of a hall are of one house, so what is under its lock and what is outside have the same
/// catalogue, and a seat of one house is no seat of another. A program picks a house where it calls a
/// function over one at `Brand`.
pub trait House: Ledger {
    /// What the catalogue says, and which turns the journal has when the hall is opened.
    ghost opening: { Opening };
}

impl House for Brand {
    ghost opening = { nothing };
}
