//! Laws: the contracts of functions that do nothing. Their statements are in `specs/Laws.antt`.

ghost use Rattle.hd_periods.specs.Laws.{ACarryThatEndedStays, AJoinThatEndedStays};
ghost use Rattle.hd_periods.specs.Laws.{AStopLeavesTheLinesOrAll, AStopLeavesTheOldOrTheNew};

/// A stop after any of the steps of a carry leaves the library of before, all of whose files are as they
/// were, or that of the next period, all of whose files are whole; after the last step it leaves the next
/// period.
pub fn a_stop_leaves_the_old_or_the_new()
    ensures stop { AStopLeavesTheOldOrTheNew }
    ensures end { ACarryThatEndedStays }
{}

/// A stop after any of the steps of a join leaves the lines that had joined before, or these with the new
/// ones, and all other files as they were; after the last step it leaves the new ones.
pub fn a_stop_leaves_the_lines_or_all()
    ensures stop { AStopLeavesTheLinesOrAll }
    ensures end { AJoinThatEndedStays }
{}
