//! What the rule of the table means, between any two steps. The functions do nothing: their
//! contracts are the laws.
ghost use Rattle.deed_table.specs.Rule.{EachUnitOnce, OneSeatEach, LeftHasNoRange, SpentIsEmpty};
ghost use Rattle.deed_table.specs.Kinds.{RunsKeepRule, OpenedStaysCovered};
ghost use Rattle.deed_table.specs.Seated.{NoTwoOverlap};

/// From the opening of a root on, each of its units lies in one range of one view.
pub fn each_unit_once()
    ensures { EachUnitOnce }
{}

/// Two deeds of one root, at any two seats, do not overlap. A `SeatDeed` keeps that its seat is
/// such a deed's.
pub fn no_two_overlap()
    ensures { NoTwoOverlap }
{}

/// No unit lies in ranges of two seats.
pub fn one_seat_each()
    ensures { OneSeatEach }
{}

/// A number that is left is left to one seat, and has no range.
pub fn left_has_no_range()
    ensures { LeftHasNoRange }
{}

/// A seat that was joined into another covers nothing.
pub fn spent_is_empty()
    ensures { SpentIsEmpty }
{}

/// From the first opener on, the rule holds after any number of steps.
pub fn runs_keep_rule()
    ensures { RunsKeepRule }
{}

/// Once a unit is opened, it is covered once after any number of steps.
pub fn opened_stays_covered()
    ensures { OpenedStaysCovered }
{}
