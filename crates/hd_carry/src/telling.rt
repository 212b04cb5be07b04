//! The text of each obstacle, by names.

ghost use Rattle.std.specs.Prelude.{◌≡◌, IfOk, map};
ghost use Rattle.std.specs.List.{concat};
ghost use Rattle.hd_carry.specs.declared.obstacle.Obstacle.TheVariants.{MissingBorrower, MissingBranch};
ghost use Rattle.hd_carry.specs.declared.obstacle.Obstacle.TheVariants.{MissingHolder, MissingOnlyCopy};
ghost use Rattle.hd_carry.specs.declared.obstacle.Obstacle.TheVariants.{MissingPickup, MissingTitle};
ghost use Rattle.hd_carry.specs.declared.obstacle.Obstacle.TheVariants.{MissingWayEnd};
ghost use Rattle.hd_carry.specs.Telling.{copy_parts, obstacle_text, part_text};

use crate::obstacle::Obstacle;
use crate::part::{LACKS_IT, Part, add_part};
use hd_catalogue::Catalogue;
use hd_rules::{BranchNo, CopyNo, CopyState, PatronNo, TitleNo};
use std::alloc::{AllocError, Allocator};

const LACKS_THEM: &[u8] = b", and the new catalogue lacks them";

/// The text of an obstacle, by the names of the old catalogue, without a line's end.
pub fn obstacle_text<A: Allocator + Copy>(
    alloc: A,
    old: &Catalogue<A>,
    new: &Catalogue<A>,
    obstacle: &Obstacle,
) -> Result<Vec<u8, A>, AllocError>
    ensures { IfOk result (λ text. text.items ≡ obstacle_text old.now new.now obstacle.now) }
{
    let teller = Teller { alloc, old, new };
    match obstacle {
        Obstacle::MissingCopy { copy, state } => teller.missing_copy(*copy, state),
        Obstacle::MissingBorrower { copy, patron } => teller.missing_borrower(*copy, *patron),
        Obstacle::MissingHolder { title, patron } => teller.missing_holder(*title, *patron),
        Obstacle::MissingTitle { title, patron } => teller.missing_title(*title, *patron),
        Obstacle::MissingBranch { branch, copy } => teller.missing_branch(*branch, *copy),
        Obstacle::MissingWayEnd { branch, copy } => teller.missing_way_end(*branch, *copy),
        Obstacle::MissingPickup {
            branch,
            title,
            patron,
        } => teller.missing_pickup(*branch, *title, *patron),
        Obstacle::MissingOnlyCopy {
            title,
            patron,
            copy,
        } => teller.missing_only_copy(*title, *patron, *copy),
        Obstacle::NumbersUsedUp => teller.text_of(&[Part::Words(b"the numbers are used up")]),
    }
}

/// What writes the texts of obstacles: the catalogues whose names it uses.
#[derive(Drop)]
struct Teller<'a, A: Allocator + Copy> {
    alloc: A,
    old: &'a Catalogue<A>,
    new: &'a Catalogue<A>,
}

impl<'a, A: Allocator + Copy> Teller<'a, A> {
    /// The text of a patron with a loan who is missing.
    fn missing_borrower(&self, copy: CopyNo, patron: PatronNo) -> Result<Vec<u8, A>, AllocError>
        ensures { IfOk result
            (λ text. text.items
            ≡ obstacle_text self.now.old.now self.now.new.now (MissingBorrower copy patron)) }
    {
        self.text_of(&[
            Part::Words(b"patron "),
            Part::Patron(patron),
            Part::Words(b" has copy "),
            Part::Copy(copy),
            Part::Words(b" on loan"),
            Part::Words(LACKS_THEM),
        ])
    }

    /// The text of a patron with a hold who is missing.
    fn missing_holder(&self, title: TitleNo, patron: PatronNo) -> Result<Vec<u8, A>, AllocError>
        ensures { IfOk result
            (λ text. text.items
            ≡ obstacle_text self.now.old.now self.now.new.now (MissingHolder title patron)) }
    {
        self.text_of(&[
            Part::Words(b"patron "),
            Part::Patron(patron),
            Part::Words(b" holds title "),
            Part::Title(title),
            Part::Words(LACKS_THEM),
        ])
    }

    /// The text of a title with a hold that is missing.
    fn missing_title(&self, title: TitleNo, patron: PatronNo) -> Result<Vec<u8, A>, AllocError>
        ensures { IfOk result
            (λ text. text.items
            ≡ obstacle_text self.now.old.now self.now.new.now (MissingTitle title patron)) }
    {
        self.text_of(&[
            Part::Words(b"title "),
            Part::Title(title),
            Part::Words(b" is held by "),
            Part::Patron(patron),
            Part::Words(LACKS_IT),
        ])
    }

    /// The text of a branch with a copy that is missing.
    fn missing_branch(&self, branch: BranchNo, copy: CopyNo) -> Result<Vec<u8, A>, AllocError>
        ensures { IfOk result
            (λ text. text.items
            ≡ obstacle_text self.now.old.now self.now.new.now (MissingBranch branch copy)) }
    {
        self.text_of(&[
            Part::Words(b"branch "),
            Part::Branch(branch),
            Part::Words(b" has copy "),
            Part::Copy(copy),
            Part::Words(LACKS_IT),
        ])
    }

    /// The text of a branch at an end of a copy's way that is missing.
    fn missing_way_end(&self, branch: BranchNo, copy: CopyNo) -> Result<Vec<u8, A>, AllocError>
        ensures { IfOk result
            (λ text. text.items
            ≡ obstacle_text self.now.old.now self.now.new.now (MissingWayEnd branch copy)) }
    {
        self.text_of(&[
            Part::Words(b"branch "),
            Part::Branch(branch),
            Part::Words(b" is on the way of copy "),
            Part::Copy(copy),
            Part::Words(LACKS_IT),
        ])
    }

    /// The text of a pickup that is missing.
    fn missing_pickup(
        &self,
        branch: BranchNo,
        title: TitleNo,
        patron: PatronNo,
    ) -> Result<Vec<u8, A>, AllocError>
        ensures { IfOk result
            (λ text. text.items
            ≡ obstacle_text self.now.old.now self.now.new.now (MissingPickup branch title patron)) }
    {
        self.text_of(&[
            Part::Words(b"branch "),
            Part::Branch(branch),
            Part::Words(b" is the pickup of "),
            Part::Patron(patron),
            Part::Words(b"'s hold of "),
            Part::Title(title),
            Part::Words(LACKS_IT),
        ])
    }

    /// The text of the one copy that a hold admits, and that is missing.
    fn missing_only_copy(
        &self,
        title: TitleNo,
        patron: PatronNo,
        copy: CopyNo,
    ) -> Result<Vec<u8, A>, AllocError>
        ensures { IfOk result
            (λ text. text.items
            ≡ obstacle_text self.now.old.now self.now.new.now (MissingOnlyCopy title patron copy)) }
    {
        self.text_of(&[
            Part::Words(b"the hold of "),
            Part::Title(title),
            Part::Words(b" by "),
            Part::Patron(patron),
            Part::Words(b" admits copy "),
            Part::Copy(copy),
            Part::Words(b" alone"),
            Part::Why(copy),
        ])
    }

    /// The text of a copy that is missing, with its place.
    fn missing_copy(&self, copy: CopyNo, state: &CopyState) -> Result<Vec<u8, A>, AllocError>
        ensures { IfOk result
            (λ text. text.items ≡ concat (copy_parts self.now.old.now self.now.new.now copy state.now)) }
    {
        match state {
            CopyState::Shelf(branch) => self.text_of(&[
                Part::Words(b"copy "),
                Part::Copy(copy),
                Part::Words(b" is at "),
                Part::Branch(*branch),
                Part::Why(copy),
            ]),
            CopyState::OnLoan(loan) => self.text_of(&[
                Part::Words(b"copy "),
                Part::Copy(copy),
                Part::Words(b" is on loan to "),
                Part::Patron(loan.patron),
                Part::Why(copy),
            ]),
            CopyState::OnHoldShelf(place) => self.text_of(&[
                Part::Words(b"copy "),
                Part::Copy(copy),
                Part::Words(b" is kept for "),
                Part::Patron(place.patron),
                Part::Words(b" at "),
                Part::Branch(place.branch),
                Part::Why(copy),
            ]),
            CopyState::InTransit(transit) => self.text_of(&[
                Part::Words(b"copy "),
                Part::Copy(copy),
                Part::Words(b" is on its way to "),
                Part::Branch(transit.to),
                Part::Why(copy),
            ]),
        }
    }

    /// The parts' texts, one after the other.
    fn text_of(&self, parts: &[Part]) -> Result<Vec<u8, A>, AllocError>
        ensures { IfOk result (λ text. text.items
            ≡ concat (map (part_text self.now.old.now self.now.new.now) parts.now)) }
    {
        let mut text = Vec::new(self.alloc);
        for part in parts {
            add_part(self.old, self.new, part, &mut text)?;
        }
        Ok(text)
    }
}
