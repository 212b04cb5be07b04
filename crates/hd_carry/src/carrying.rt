//! A desk carried over.

ghost use Rattle.std.specs.Prelude.{[], ◌∷◌, ◌≡◌, ◌++◌, ◌+◌, ◌≤◌, ℕ, IfErr, IfOk, OnOk, false, nat_lt, true};
ghost use Rattle.std.specs.Prelude.{if◌then◌else◌, ◌≢◌};
ghost use Rattle.hd_rules.specs.declared.limits.TheConstants.{MOST_COMMANDS, MOST_GIVEN};
ghost use Rattle.hd_rules.specs.Facts.{AreInRange};
ghost use Rattle.hd_rules.specs.Known.{IsKnownDesk};
ghost use Rattle.hd_rules.specs.Sound.{Sound};
ghost use Rattle.hd_catalogue.specs.Contents.{facts_of};
ghost use Rattle.hd_desk.specs.Asking.{AreQueuesOf, queues_of};
ghost use Rattle.hd_desk.specs.Desks.{contents, desk_of, facts};
ghost use Rattle.hd_carry.specs.declared.obstacle.Obstacle.TheVariants.{NumbersUsedUp};
ghost use Rattle.hd_carry.specs.ByNames.{HasDistinctNames, by_names};
ghost use Rattle.hd_carry.specs.CarriedRows.{carried_rows};
ghost use Rattle.hd_carry.specs.Faults.{IsOf, Tells, TellsOnce, all_obstacles};
ghost use Rattle.hd_carry.specs.InTheWay.{IsInTheWay};
ghost use Rattle.hd_carry.specs.Laws.{CarryOver};
ghost use Rattle.hd_carry.specs.Numbers.{AreCopiesOf, renumbering};
ghost use Rattle.hd_carry.specs.Obstacles.{number_obstacles, obstacles as desk_obstacles};
ghost use Rattle.hd_carry.specs.WriteOffs.{carried_desk, is_noted, without_loans};

use crate::copy_rows::add_copy_rows;
use crate::counting::{copies_of, copy_at, patron_at, title_at, titles_of};
use crate::fault::CarryFault;
use crate::hold_rows::add_hold_rows;
use crate::laws::{names_keep_to_themselves, obstacles_are_exact, rows_carry_a_desk_over};
use crate::names::NewNumbers;
use crate::obstacle::Obstacle;
use crate::obstacles::{add_at_copies, add_at_titles};
use crate::writing_off::WriteOff;
use hd_catalogue::Catalogue;
use hd_desk::Desk;
use hd_rules::{CopyNo, MOST_GIVEN, OpeningRow};
use std::alloc::{AllocError, Allocator};

/// The rows by which a journal of the new catalogue opens with the old desk, by names (docs/opening.md).
///
/// `last` is the last number given so far. The loans of the copies of `write_off`, by old numbers, are
/// dropped: such a copy is on the open shelf of its home.
///
/// # Errors
///
/// `InTheWay` with all obstacles, each once, and at least one; `Memory` where it is out of memory.
pub fn carry<A: Allocator + Copy>(
    alloc: A,
    old: &Desk<A>,
    last: u32,
    new: &Catalogue<A>,
    write_off: &[CopyNo],
) -> Result<Vec<OpeningRow, A>, CarryFault<A>>
    ensures carried { IfOk result (λ rows. (n : ℕ) → Sound (facts old.now) n (desk_of old.now)
        → CarryOver (facts old.now) (facts_of new.now) (by_names (contents old.now) new.now) n
        (carried_desk old.now write_off.now) rows.items) }
    ensures numbers { OnOk result (last + (facts_of new.now).command_limit ≤ MOST_GIVEN) }
    ensures in_the_way { IfErr result (IsOf (all_obstacles (contents old.now) new.now last
        (carried_desk old.now write_off.now) (queues_of old.now))) }
    ensures exact { IfErr result (Tells (IsInTheWay (facts old.now) (facts_of new.now)
        (by_names (contents old.now) new.now) (carried_desk old.now write_off.now) last)) }
    ensures once { IfErr result TellsOnce }
{
    obstacles_are_exact();
    rows_carry_a_desk_over();
    keeps_its_queues(old);
    names_known_things(old);
    let numbers = numbers_of(alloc, old, new)?;
    let noted = WriteOff::new(alloc, copies_of(old), write_off)?;
    let obstacles = obstacles_of(alloc, old, last, new, &numbers, &noted)?;
    if is_free(&obstacles) {
        return Ok(rows_of(alloc, old, new, &numbers, &noted)?);
    }
    Err(CarryFault::InTheWay(obstacles))
}

/// The titles of each desk have their queues.
fn keeps_its_queues<A: Allocator + Copy>(desk: &Desk<A>)
    ensures { AreQueuesOf (facts desk.now) (desk_of desk.now) (queues_of desk.now) }
{
    let _titles = desk.titles();
}

/// The cells of each desk name things of its catalogue, which keeps to its limits.
fn names_known_things<A: Allocator + Copy>(desk: &Desk<A>)
    ensures range { AreInRange (facts desk.now) }
    ensures known { IsKnownDesk (facts desk.now) (desk_of desk.now) }
{
    let copies = copies_of(desk);
    let titles = titles_of(desk);
    if 0 < copies {
        let _state = desk.copy(copy_at(0));
        return;
    }
    if 0 < titles {
        let _hold = desk.hold(title_at(0), patron_at(0));
        return;
    }
}

/// The new numbers of the names of a desk's catalogue, no two of which are equal.
fn numbers_of<A: Allocator + Copy>(
    alloc: A,
    old: &Desk<A>,
    new: &Catalogue<A>,
) -> Result<NewNumbers<A>, AllocError>
    ensures names { IfOk result
        (λ numbers. renumbering numbers ≡ by_names (contents old.now) new.now) }
    ensures distinct { OnOk result (HasDistinctNames (contents old.now)) }
    ensures copies { IfOk result (λ numbers. AreCopiesOf (facts_of new.now) (renumbering numbers)) }
{
    names_keep_to_themselves();
    NewNumbers::new(alloc, old.catalogue(), new)
}

/// Whether there is no obstacle.
fn is_free(obstacles: &[Obstacle]) -> bool
    ensures free { result ≡ true → obstacles.now ≡ [] }
    ensures taken { result ≡ false → obstacles.now ≢ [] }
{
    obstacles.is_empty()
}

/// The obstacles: those at the copies, those at the holds, and that the numbers are used up.
fn obstacles_of<A: Allocator + Copy>(
    alloc: A,
    old: &Desk<A>,
    last: u32,
    new: &Catalogue<A>,
    numbers: &NewNumbers<A>,
    noted: &WriteOff<A>,
) -> Result<Vec<Obstacle, A>, AllocError>
    ensures { IfOk result (λ told. told.items ≡ desk_obstacles (renumbering numbers.now) (facts old.now)
        (without_loans (facts old.now) (is_noted noted.now) (desk_of old.now)) (queues_of old.now)
        ++ number_obstacles last (facts_of new.now)) }
{
    let mut obstacles = Vec::new(alloc);
    add_at_copies(old, numbers, noted, &mut obstacles)?;
    add_at_titles(old, numbers, &mut obstacles)?;
    add_used_up(last, new.command_limit(), &mut obstacles)?;
    Ok(obstacles)
}

/// Adds that the numbers are used up, where fewer than `limit` are left for commands.
fn add_used_up<A: Allocator>(
    last: u32,
    limit: u64,
    obstacles: &mut Vec<Obstacle, A>,
) -> Result<(), AllocError>
    requires { limit ≤ MOST_COMMANDS }
    ensures { OnOk result (obstacles.new.items ≡ obstacles.old.items
        ++ (if nat_lt MOST_GIVEN (last + limit) then NumbersUsedUp ∷ [] else [])) }
{
    if u64::from(MOST_GIVEN) < u64::from(last) + limit {
        obstacles.push(Obstacle::NumbersUsedUp)?;
    }
    Ok(())
}

/// The rows: first those of the holds, and then those of the copies.
fn rows_of<A: Allocator + Copy>(
    alloc: A,
    old: &Desk<A>,
    new: &Catalogue<A>,
    numbers: &NewNumbers<A>,
    noted: &WriteOff<A>,
) -> Result<Vec<OpeningRow, A>, AllocError>
    requires { AreCopiesOf (facts_of new.now) (renumbering numbers.now) }
    ensures { IfOk result (λ rows. rows.items ≡ carried_rows (renumbering numbers.now) (facts old.now)
        (facts_of new.now) (without_loans (facts old.now) (is_noted noted.now) (desk_of old.now))
        (queues_of old.now)) }
{
    let mut rows = Vec::new(alloc);
    add_hold_rows(old, numbers, &mut rows)?;
    add_copy_rows(old, new, numbers, noted, &mut rows)?;
    Ok(rows)
}
