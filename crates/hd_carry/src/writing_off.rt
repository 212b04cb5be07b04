//! Loans that are written off.
#![tactic(auto, unfolding(crate::specs::WriteOffs::without_loans))]

ghost use Rattle.std.specs.Prelude.{◌≡◌, ◌<◌, ◌||◌, ℕ, IfOk, length, true};
ghost use Rattle.hd_desk.specs.Desks.{desk_of, facts};
ghost use Rattle.hd_carry.specs.WriteOffs.{AreNoted, is_listed, is_noted, without_loans};
ghost use Rattle.hd_carry.specs.WriteOffs.{written_state};

use hd_desk::Desk;
use hd_rules::{BranchNo, CopyNo, CopyState};
use std::alloc::{AllocError, Allocator, Global};
use std::marker::Model;

/// The copies whose loans are written off, noted by number.
#[derive(Drop)]
pub(crate) struct WriteOff<A: Allocator = Global> {
    notes: Vec<bool, A>,
}

impl<A: Allocator> Model for WriteOff<A> {
    ghost use Rattle.std.specs.Prelude.{Bool, List};

    ghost Value = { List Bool };

    ghost view = { λ w. w.notes.items };
}

impl<A: Allocator + Copy> WriteOff<A> {
    /// The listed ones of `count` copies. Listed numbers from `count` on are ignored.
    pub(crate) fn new(alloc: A, count: usize, listed: &[CopyNo]) -> Result<WriteOff<A>, AllocError>
        ensures { IfOk result (λ noted. AreNoted count listed.now noted) }
    {
        let mut notes = vec![in alloc; false; count]?;
        note(&mut notes, listed);
        Ok(WriteOff { notes })
    }

    /// Whether the copy's loan is written off.
    fn has(&self, copy: CopyNo) -> bool
        ensures { result ≡ is_noted self.now copy }
    {
        match self.notes.get(copy.number() as usize) {
            Some(noted) => *noted,
            None => false,
        }
    }

    /// Where the copy is, when the loans that are written off have ended.
    pub(crate) fn state(&self, desk: &Desk<A>, copy: CopyNo) -> CopyState
        requires { copy < (facts desk.now).copies }
        ensures { result
            ≡ (without_loans (facts desk.now) (is_noted self.now) (desk_of desk.now)).copy copy }
    {
        let state = desk.copy(copy);
        if self.has(copy) {
            without_loan(desk.catalogue().home(copy), &state)
        } else {
            state
        }
    }
}

/// Where a copy with this home is, when its loan has ended.
fn without_loan(home: BranchNo, state: &CopyState) -> CopyState
    ensures { result ≡ written_state true home state.now }
{
    match state {
        CopyState::OnLoan(_) => CopyState::Shelf(home),
        CopyState::Shelf(_) | CopyState::OnHoldShelf(_) | CopyState::InTransit(_) => *state,
    }
}

/// Notes the listed copies.
fn note(notes: &mut [bool], listed: &[CopyNo])
    ensures count { length notes.new ≡ length notes.old }
    ensures each { (c : ℕ) → c < length notes.old
        → is_noted notes.new c ≡ (is_noted notes.old c || is_listed listed.now c) }
{
    for copy in listed {
        let number = copy.number() as usize;
        if number < notes.len() {
            notes[number] = true;
        }
    }
}
