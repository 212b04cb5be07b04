//! What the new catalogue lacks.
ghost use Rattle.std.specs.Prelude.{◌≡◌, ◌++◌, OnOk};
ghost use Rattle.hd_carry.specs.Numbers.{renumbering};
ghost use Rattle.hd_carry.specs.Obstacles.{where_lacking};

use crate::names::NewNumbers;
use crate::obstacle::Obstacle;
use hd_rules::{BranchNo, CopyNo, PatronNo, TitleNo};
use std::alloc::{AllocError, Allocator};

/// Adds the obstacle where the new catalogue lacks the branch.
pub(crate) fn add_without_branch<A: Allocator + Copy>(
    numbers: &NewNumbers<A>,
    branch: BranchNo,
    obstacle: Obstacle,
    obstacles: &mut Vec<Obstacle, A>,
) -> Result<(), AllocError>
    ensures { OnOk result (obstacles.new.items
        ≡ obstacles.old.items ++ where_lacking ((renumbering numbers.now).branch branch) obstacle) }
{
    match numbers.branch(branch) {
        Some(_) => Ok(()),
        None => Ok(obstacles.push(obstacle)?),
    }
}

/// Adds the obstacle where the new catalogue lacks the title.
pub(crate) fn add_without_title<A: Allocator + Copy>(
    numbers: &NewNumbers<A>,
    title: TitleNo,
    obstacle: Obstacle,
    obstacles: &mut Vec<Obstacle, A>,
) -> Result<(), AllocError>
    ensures { OnOk result (obstacles.new.items
        ≡ obstacles.old.items ++ where_lacking ((renumbering numbers.now).title title) obstacle) }
{
    match numbers.title(title) {
        Some(_) => Ok(()),
        None => Ok(obstacles.push(obstacle)?),
    }
}

/// Adds the obstacle where the new catalogue lacks the copy.
pub(crate) fn add_without_copy<A: Allocator + Copy>(
    numbers: &NewNumbers<A>,
    copy: CopyNo,
    obstacle: Obstacle,
    obstacles: &mut Vec<Obstacle, A>,
) -> Result<(), AllocError>
    ensures { OnOk result (obstacles.new.items
        ≡ obstacles.old.items ++ where_lacking ((renumbering numbers.now).copy copy) obstacle) }
{
    match numbers.copy(copy) {
        Some(_) => Ok(()),
        None => Ok(obstacles.push(obstacle)?),
    }
}

/// Adds the obstacle where the new catalogue lacks the patron.
pub(crate) fn add_without_patron<A: Allocator + Copy>(
    numbers: &NewNumbers<A>,
    patron: PatronNo,
    obstacle: Obstacle,
    obstacles: &mut Vec<Obstacle, A>,
) -> Result<(), AllocError>
    ensures { OnOk result (obstacles.new.items
        ≡ obstacles.old.items ++ where_lacking ((renumbering numbers.now).patron patron) obstacle) }
{
    match numbers.patron(patron) {
        Some(_) => Ok(()),
        None => Ok(obstacles.push(obstacle)?),
    }
}
