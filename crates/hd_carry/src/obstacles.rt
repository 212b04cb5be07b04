//! All obstacles of a desk.
ghost use Rattle.std.specs.Prelude.{◌≡◌, ◌++◌, OnOk, flat_map};
ghost use Rattle.hd_carry.specs.declared.obstacle.Obstacle.TheVariants.{MissingWayEnd};
ghost use Rattle.hd_carry.specs.Numbers.{renumbering};
ghost use Rattle.hd_carry.specs.Obstacles.{arrival_obstacles, copies_obstacles, copy_obstacles};
ghost use Rattle.hd_carry.specs.Obstacles.{hold_obstacles, kind_obstacles, shelf_obstacles, titles_obstacles};
ghost use Rattle.hd_carry.specs.Obstacles.{where_lacking};
ghost use Rattle.hd_carry.specs.WriteOffs.{is_noted, without_loans};
ghost use Rattle.hd_desk.specs.Asking.{queues_of};
ghost use Rattle.hd_desk.specs.Desks.{desk_of, facts};

use crate::adding::{add_without_branch, add_without_copy, add_without_patron, add_without_title};
use crate::counting::{copies_of, copy_at, title_at, titles_of};
use crate::names::NewNumbers;
use crate::obstacle::Obstacle;
use crate::writing_off::WriteOff;
use hd_desk::Desk;
use hd_queue::HoldSlices;
use hd_rules::{BranchNo, CopyNo, CopyState, Hold, HoldKind, PatronNo, TitleNo, Transit};
use std::alloc::{AllocError, Allocator};

/// Adds the obstacles at the copies, by number.
pub(crate) fn add_at_copies<A: Allocator + Copy>(
    desk: &Desk<A>,
    numbers: &NewNumbers<A>,
    write_off: &WriteOff<A>,
    obstacles: &mut Vec<Obstacle, A>,
) -> Result<(), AllocError>
    ensures { OnOk result (obstacles.new.items ≡ obstacles.old.items
        ++ copies_obstacles (renumbering numbers.now) (without_loans (facts desk.now) (is_noted write_off.now)
        (desk_of desk.now)) (facts desk.now).copies) }
{
    for number in 0..copies_of(desk) {
        let copy = copy_at(number);
        let state = write_off.state(desk, copy);
        add_at_copy(numbers, copy, &state, obstacles)?;
    }
    Ok(())
}

/// Adds the obstacles at a copy in this state.
fn add_at_copy<A: Allocator + Copy>(
    numbers: &NewNumbers<A>,
    copy: CopyNo,
    state: &CopyState,
    obstacles: &mut Vec<Obstacle, A>,
) -> Result<(), AllocError>
    ensures { OnOk result (obstacles.new.items
        ≡ obstacles.old.items ++ copy_obstacles (renumbering numbers.now) copy state.now) }
{
    let missing = Obstacle::MissingCopy {
        copy,
        state: *state,
    };
    match state {
        CopyState::Shelf(branch) => add_at_shelf(numbers, copy, *branch, obstacles),
        CopyState::OnLoan(loan) => {
            let patron = loan.patron;
            add_without_copy(numbers, copy, missing, obstacles)?;
            add_without_patron(
                numbers,
                patron,
                Obstacle::MissingBorrower { copy, patron },
                obstacles,
            )
        }
        CopyState::OnHoldShelf(place) => {
            let branch = place.branch;
            add_without_copy(numbers, copy, missing, obstacles)?;
            add_without_branch(
                numbers,
                branch,
                Obstacle::MissingBranch { branch, copy },
                obstacles,
            )
        }
        CopyState::InTransit(transit) => {
            add_without_copy(numbers, copy, missing, obstacles)?;
            add_way_end(numbers, copy, transit.from, obstacles)?;
            add_arrival(numbers, copy, transit, obstacles)
        }
    }
}

/// Adds a branch that has a copy on its open shelf, where the branch is lacking and the copy isn't.
fn add_at_shelf<A: Allocator + Copy>(
    numbers: &NewNumbers<A>,
    copy: CopyNo,
    branch: BranchNo,
    obstacles: &mut Vec<Obstacle, A>,
) -> Result<(), AllocError>
    ensures { OnOk result (obstacles.new.items ≡ obstacles.old.items
        ++ shelf_obstacles (renumbering numbers.now) copy ((renumbering numbers.now).copy copy) branch) }
{
    match numbers.copy(copy) {
        Some(_) => {
            add_without_branch(
                numbers,
                branch,
                Obstacle::MissingBranch { branch, copy },
                obstacles,
            )
        }
        None => Ok(()),
    }
}

/// Adds the branch that gets a copy, where it is lacking, and another one sent the copy.
fn add_arrival<A: Allocator + Copy>(
    numbers: &NewNumbers<A>,
    copy: CopyNo,
    transit: &Transit,
    obstacles: &mut Vec<Obstacle, A>,
) -> Result<(), AllocError>
    ensures { OnOk result (obstacles.new.items ≡ obstacles.old.items
        ++ arrival_obstacles (renumbering numbers.now) copy transit.now.from transit.now.to) }
{
    if transit.to == transit.from {
        return Ok(());
    }
    add_way_end(numbers, copy, transit.to, obstacles)
}

/// Adds a branch at an end of a copy's way, where it is lacking.
fn add_way_end<A: Allocator + Copy>(
    numbers: &NewNumbers<A>,
    copy: CopyNo,
    branch: BranchNo,
    obstacles: &mut Vec<Obstacle, A>,
) -> Result<(), AllocError>
    ensures { OnOk result (obstacles.new.items ≡ obstacles.old.items
        ++ where_lacking ((renumbering numbers.now).branch branch) (MissingWayEnd branch copy)) }
{
    add_without_branch(
        numbers,
        branch,
        Obstacle::MissingWayEnd { branch, copy },
        obstacles,
    )
}

/// Adds the obstacles at the holds of all titles, by number.
pub(crate) fn add_at_titles<A: Allocator + Copy>(
    desk: &Desk<A>,
    numbers: &NewNumbers<A>,
    obstacles: &mut Vec<Obstacle, A>,
) -> Result<(), AllocError>
    ensures { OnOk result (obstacles.new.items ≡ obstacles.old.items
        ++ titles_obstacles (renumbering numbers.now) (queues_of desk.now) (facts desk.now).titles) }
{
    for number in 0..titles_of(desk) {
        let title = title_at(number);
        add_at_queue(numbers, title, desk.queue(title).holds(), obstacles)?;
    }
    Ok(())
}

/// Adds the obstacles at the holds of a title, in order of stamp.
fn add_at_queue<A: Allocator + Copy>(
    numbers: &NewNumbers<A>,
    title: TitleNo,
    holds: HoldSlices<'_, A>,
    obstacles: &mut Vec<Obstacle, A>,
) -> Result<(), AllocError>
    ensures { OnOk result (obstacles.new.items
        ≡ obstacles.old.items ++ flat_map (hold_obstacles (renumbering numbers.now) title) holds.entry) }
{
    for hold in holds {
        add_at_hold(numbers, title, hold, obstacles)?;
    }
    Ok(())
}

/// Adds the obstacles at a hold.
fn add_at_hold<A: Allocator + Copy>(
    numbers: &NewNumbers<A>,
    title: TitleNo,
    hold: &Hold,
    obstacles: &mut Vec<Obstacle, A>,
) -> Result<(), AllocError>
    ensures { OnOk result (obstacles.new.items
        ≡ obstacles.old.items ++ hold_obstacles (renumbering numbers.now) title hold.now) }
{
    let patron = hold.patron;
    let branch = hold.pickup;
    let pickup = Obstacle::MissingPickup {
        branch,
        title,
        patron,
    };
    add_without_title(
        numbers,
        title,
        Obstacle::MissingTitle { title, patron },
        obstacles,
    )?;
    add_without_patron(
        numbers,
        patron,
        Obstacle::MissingHolder { title, patron },
        obstacles,
    )?;
    add_without_branch(numbers, branch, pickup, obstacles)?;
    add_only_copy(numbers, title, patron, &hold.kind, obstacles)
}

/// Adds the one copy that a hold admits, where it is lacking.
fn add_only_copy<A: Allocator + Copy>(
    numbers: &NewNumbers<A>,
    title: TitleNo,
    patron: PatronNo,
    kind: &HoldKind,
    obstacles: &mut Vec<Obstacle, A>,
) -> Result<(), AllocError>
    ensures { OnOk result (obstacles.new.items
        ≡ obstacles.old.items ++ kind_obstacles (renumbering numbers.now) title patron kind.now) }
{
    match kind {
        HoldKind::One(copy) => {
            let copy = *copy;
            let only = Obstacle::MissingOnlyCopy {
                title,
                patron,
                copy,
            };
            add_without_copy(numbers, copy, only, obstacles)
        }
        HoldKind::Any | HoldKind::AtBranch => Ok(()),
    }
}
