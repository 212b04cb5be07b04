//! Laws: the contracts of functions that do nothing. Their statements stand in `specs/Union.antt`.

ghost use Rattle.hd_index.specs.Union.{UnionsAboveAreFilters, UnionsAreFilters, UnionsHaveEachOnce};

/// The union of parts of one rising list, each of them what passes a test, is what passes one of the tests.
pub fn unions_are_filters()
    ensures { UnionsAreFilters }
{}

/// So it is with what is above a number in each part: it is what passes one of the tests above that number.
pub fn unions_above_are_filters()
    ensures { UnionsAboveAreFilters }
{}

/// A union rises, and has the numbers that one of the lists has, and no others.
pub fn unions_have_each_once()
    ensures { UnionsHaveEachOnce }
{}
