//! Kinds of names that a carry may need.
#![tactic(auto, unfolding(hd_catalogue::specs::Contents::facts_of))]

ghost use Rattle.std.specs.Prelude.{◌≡◌, option_map};
ghost use Rattle.hd_catalogue.specs.Contents.{facts_of};
ghost use Rattle.hd_merge.specs.Kinds.{count_of, kind_of, number_named};

use hd_catalogue::{Catalogue, is_letter};
use std::alloc::Allocator;

/// A kind of names at which something may be on loan, kept, on its way or held. Terminals have no part in that.
#[derive(Clone, Copy, PartialEq, Eq, Debug)]
pub enum NameKind {
    /// Branches.
    Branch,
    /// Patrons.
    Patron,
    /// Titles.
    Title,
    /// Copies.
    Copy,
}

impl NameKind {
    /// The kind of a catalogue line that begins with this value, if it is one of these.
    pub(crate) fn of(letter: &[u8]) -> Option<NameKind>
        ensures { result ≡ kind_of letter.now }
    {
        if is_letter(b'B', letter) {
            Some(NameKind::Branch)
        } else if is_letter(b'P', letter) {
            Some(NameKind::Patron)
        } else if is_letter(b'T', letter) {
            Some(NameKind::Title)
        } else if is_letter(b'C', letter) {
            Some(NameKind::Copy)
        } else {
            None
        }
    }

    /// How many names of the kind a catalogue has.
    pub fn count<A: Allocator + Copy>(self, catalogue: &Catalogue<A>) -> usize
        ensures { result ≡ count_of (facts_of catalogue.now) self }
    {
        match self {
            NameKind::Branch => catalogue.branches(),
            NameKind::Patron => catalogue.patrons(),
            NameKind::Title => catalogue.titles(),
            NameKind::Copy => catalogue.copies(),
        }
    }

    /// The number of a name of the kind, where a catalogue has it.
    pub fn number<A: Allocator + Copy>(self, catalogue: &Catalogue<A>, name: &[u8]) -> Option<u32>
        ensures { option_map (λ number. number) result ≡ number_named catalogue.now self name.now }
    {
        match self {
            NameKind::Branch => Some(u32::from(catalogue.branch(name)?.number())),
            NameKind::Patron => Some(catalogue.patron(name)?.number()),
            NameKind::Title => Some(catalogue.title(name)?.number()),
            NameKind::Copy => Some(catalogue.copy(name)?.number()),
        }
    }
}
