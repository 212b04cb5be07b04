//! Going over the survivors.
ghost use Rattle.std.specs.Prelude.{◌≡◌, ◌∷◌, [], MatchOption};
ghost use Rattle.std.specs.Iterator.{YieldsFirstRef, item_count};
ghost use Rattle.hd_records.specs.Laid.{survivors_in};

use crate::slots::Slot;
use hd_rules::Survivor;
use std::marker::Model;

/// The commands that were accepted and not cancelled, by number, each with its number and its terminal.
#[derive(Drop)]
pub struct Survivors<'a> {
    rest: &'a [Slot],
}

impl<'a> Model for Survivors<'a> {
    ghost use Rattle.std.specs.Prelude.{List};
    ghost use Rattle.hd_rules.specs.declared.commands.Survivor.{Survivor};
    ghost use Rattle.hd_records.specs.Laid.{survivors_in};

    ghost Value = { List Survivor };

    ghost view = { λ s. survivors_in s.rest.now };
}

impl<'a> Survivors<'a> {
    /// Those that the records of the slots are of.
    pub(crate) fn new(slots: &'a [Slot]) -> Survivors<'a>
        ensures { result ≡ survivors_in slots.now }
    {
        Survivors { rest: slots }
    }
}

impl<'a> Iterator for Survivors<'a> {
    type Item = &'a Survivor;

    ghost next_gives = { YieldsFirstRef (λ survivors. survivors) };

    ghost remaining = { item_count (λ survivors. survivors) };

    fn next(&mut self) -> Option<&'a Survivor> {
        let (survivor, others) = first_survivor(self.rest)?;
        self.rest = others;
        Some(survivor)
    }
}

/// The survivor of the first record of the slots, and the slots after it.
fn first_survivor(slots: &[Slot]) -> Option<(&Survivor, &[Slot])>
    ensures { MatchOption result
        (survivors_in slots.now ≡ [])
        (λ found. survivors_in slots.now ≡ found.0.now ∷ survivors_in found.1.now) }
{
    for place in 0..slots.len() {
        if let Some(kept) = &slots[place].kept {
            return Some((&kept.survivor, &slots[place + 1..]));
        }
    }
    None
}
