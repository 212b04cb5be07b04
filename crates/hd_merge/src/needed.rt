//! Names that a carry needs.
ghost use Rattle.std.specs.Prelude.{◌≡◌, ◌<◌, ◌||◌, ℕ, false, length, nat_eq};
ghost use Rattle.std.specs.Option.{option_map_or};
ghost use Rattle.std.specs.Prelude.{IfOk, option_map};
ghost use Rattle.hd_catalogue.specs.Contents.{facts_of};
ghost use Rattle.hd_carry.specs.WriteOffs.{is_noted};
ghost use Rattle.hd_merge.specs.Keeping.{is_line_noted, notes_of};
ghost use Rattle.hd_merge.specs.Needed.{AreNeeded, AreNoted, its_home, its_title, lacking_copy, lacking_patron};
ghost use Rattle.hd_merge.specs.Needed.{needed, needed_branch, needed_title};

use crate::kind::NameKind;
use hd_carry::Obstacle;
use hd_catalogue::{Catalogue, Values};
use hd_rules::{BranchNo, CopyNo, PatronNo, TitleNo};
use std::alloc::{AllocError, Allocator, Global};
use std::marker::Model;

/// The names of an old catalogue that a carry needs, noted by kind and number.
#[derive(Drop)]
pub struct Needed<A: Allocator = Global> {
    branches: Vec<bool, A>,
    patrons: Vec<bool, A>,
    titles: Vec<bool, A>,
    copies: Vec<bool, A>,
}

impl<A: Allocator> Model for Needed<A> {
    ghost use Rattle.hd_merge.specs.Notes.{Notes};

    ghost Value = { Notes };

    ghost view = { λ n. record {
      branches = n.branches.items;
      patrons = n.patrons.items;
      titles = n.titles.items;
      copies = n.copies.items;
    } };
}

impl<A: Allocator + Copy> Needed<A> {
    /// The names that obstacles to a carry from this catalogue need.
    ///
    /// # Errors
    /// Out of memory.
    pub fn new(
        alloc: A,
        old: &Catalogue<A>,
        obstacles: &[Obstacle],
    ) -> Result<Needed<A>, AllocError>
        ensures { IfOk result (AreNeeded (facts_of old.now) obstacles.now) }
    {
        Ok(Needed {
            branches: noted(alloc, old, NameKind::Branch, obstacles)?,
            patrons: noted(alloc, old, NameKind::Patron, obstacles)?,
            titles: noted(alloc, old, NameKind::Title, obstacles)?,
            copies: noted(alloc, old, NameKind::Copy, obstacles)?,
        })
    }

    /// Whether the name that a catalogue line defines is needed.
    #[tactic(auto, unfolding(crate::specs::Keeping::is_line_noted))]
    pub(crate) fn has_line(&self, old: &Catalogue<A>, line: &[u8]) -> bool
        ensures { result ≡ is_line_noted old.now self.now line.now }
    {
        let mut values = Values::of(line);
        let Some(letter) = values.take() else {
            return false;
        };
        let Some(name) = values.take() else {
            return false;
        };
        match NameKind::of(letter) {
            Some(kind) => self.has(kind, kind.number(old, name)),
            None => false,
        }
    }

    /// Whether the name of the kind with a number is needed; no, where there is no number.
    fn has(&self, kind: NameKind, number: Option<u32>) -> bool
        ensures { result ≡ option_map_or (is_noted (notes_of self.now kind)) number false }
    {
        let notes = match kind {
            NameKind::Branch => self.branches.as_slice(),
            NameKind::Patron => self.patrons.as_slice(),
            NameKind::Title => self.titles.as_slice(),
            NameKind::Copy => self.copies.as_slice(),
        };
        match number {
            Some(number) => at(notes, number),
            None => false,
        }
    }
}

/// Whether a number is noted.
fn at(notes: &[bool], number: u32) -> bool
    ensures { result ≡ is_noted notes.now number }
{
    match notes.get(number as usize) {
        Some(noted) => *noted,
        None => false,
    }
}

/// Of each name of a kind whether it is needed.
fn noted<A: Allocator + Copy>(
    alloc: A,
    old: &Catalogue<A>,
    kind: NameKind,
    obstacles: &[Obstacle],
) -> Result<Vec<bool, A>, AllocError>
    ensures { IfOk result (λ notes. AreNoted (facts_of old.now) kind obstacles.now notes.items) }
{
    let mut notes = vec![in alloc; false; kind.count(old)]?;
    for obstacle in obstacles {
        if let Some(number) = need_of(old, kind, obstacle) {
            note(&mut notes, number);
        }
    }
    Ok(notes)
}

/// Notes a number, if it is one of these.
fn note(notes: &mut [bool], number: u32)
    ensures count { length notes.new ≡ length notes.old }
    ensures each { (n : ℕ) → n < length notes.old
        → is_noted notes.new n ≡ (is_noted notes.old n || nat_eq n number) }
{
    let number = number as usize;
    if number < notes.len() {
        notes[number] = true;
    }
}

/// The number of the name of a kind that an obstacle needs.
fn need_of<A: Allocator + Copy>(
    old: &Catalogue<A>,
    kind: NameKind,
    obstacle: &Obstacle,
) -> Option<u32>
    ensures { result ≡ needed (facts_of old.now) kind obstacle.now }
{
    match kind {
        NameKind::Branch => Some(u32::from(needed_branch(old, obstacle)?.number())),
        NameKind::Patron => Some(lacking_patron(obstacle)?.number()),
        NameKind::Title => Some(needed_title(old, obstacle)?.number()),
        NameKind::Copy => Some(lacking_copy(obstacle)?.number()),
    }
}

/// The copy that is lacking.
fn lacking_copy(obstacle: &Obstacle) -> Option<CopyNo>
    ensures { result ≡ lacking_copy obstacle.now }
{
    match obstacle {
        Obstacle::MissingCopy { copy, .. } | Obstacle::MissingOnlyCopy { copy, .. } => Some(*copy),
        Obstacle::MissingBorrower { .. }
        | Obstacle::MissingHolder { .. }
        | Obstacle::MissingTitle { .. }
        | Obstacle::MissingBranch { .. }
        | Obstacle::MissingWayEnd { .. }
        | Obstacle::MissingPickup { .. }
        | Obstacle::NumbersUsedUp => None,
    }
}

/// The patron who is lacking.
fn lacking_patron(obstacle: &Obstacle) -> Option<PatronNo>
    ensures { result ≡ lacking_patron obstacle.now }
{
    match obstacle {
        Obstacle::MissingBorrower { patron, .. } | Obstacle::MissingHolder { patron, .. } => {
            Some(*patron)
        }
        Obstacle::MissingCopy { .. }
        | Obstacle::MissingOnlyCopy { .. }
        | Obstacle::MissingTitle { .. }
        | Obstacle::MissingBranch { .. }
        | Obstacle::MissingWayEnd { .. }
        | Obstacle::MissingPickup { .. }
        | Obstacle::NumbersUsedUp => None,
    }
}

/// The title that is lacking, or that the line of a lacking copy names.
fn needed_title<A: Allocator + Copy>(old: &Catalogue<A>, obstacle: &Obstacle) -> Option<TitleNo>
    ensures { result ≡ needed_title (facts_of old.now) obstacle.now }
{
    match obstacle {
        Obstacle::MissingTitle { title, .. } => Some(*title),
        Obstacle::MissingCopy { copy, .. } | Obstacle::MissingOnlyCopy { copy, .. } => {
            its_title(old, *copy)
        }
        Obstacle::MissingBorrower { .. }
        | Obstacle::MissingHolder { .. }
        | Obstacle::MissingBranch { .. }
        | Obstacle::MissingWayEnd { .. }
        | Obstacle::MissingPickup { .. }
        | Obstacle::NumbersUsedUp => None,
    }
}

/// The branch that is lacking, or that the line of a lacking copy names.
fn needed_branch<A: Allocator + Copy>(old: &Catalogue<A>, obstacle: &Obstacle) -> Option<BranchNo>
    ensures { result ≡ needed_branch (facts_of old.now) obstacle.now }
{
    match obstacle {
        Obstacle::MissingBranch { branch, .. }
        | Obstacle::MissingWayEnd { branch, .. }
        | Obstacle::MissingPickup { branch, .. } => Some(*branch),
        Obstacle::MissingCopy { copy, .. } | Obstacle::MissingOnlyCopy { copy, .. } => {
            its_home(old, *copy)
        }
        Obstacle::MissingBorrower { .. }
        | Obstacle::MissingHolder { .. }
        | Obstacle::MissingTitle { .. }
        | Obstacle::NumbersUsedUp => None,
    }
}

/// The title that the line of a copy names.
fn its_title<A: Allocator + Copy>(old: &Catalogue<A>, copy: CopyNo) -> Option<TitleNo>
    ensures { result ≡ its_title (facts_of old.now) copy }
{
    if (copy.number() as usize) < old.copies() {
        Some(old.title_of(copy))
    } else {
        None
    }
}

/// The home that the line of a copy names.
fn its_home<A: Allocator + Copy>(old: &Catalogue<A>, copy: CopyNo) -> Option<BranchNo>
    ensures { result ≡ its_home (facts_of old.now) copy }
{
    if (copy.number() as usize) < old.copies() {
        Some(old.home(copy))
    } else {
        None
    }
}
