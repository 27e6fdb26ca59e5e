//! Laws of turns, stated in `specs/Statements.antt`. Calling them does nothing.
ghost use Rattle.collector.specs.Statements.{PlacedAreInTurn, NoneIsInTurnTwice, LargeTurnsArePasses, LateVersionsStand};

/// In turn are just the placed references, each once.
pub fn placed_references_are_in_turn_once()
    ensures placed { PlacedAreInTurn }
    ensures once { NoneIsInTurnTwice }
{}

/// A turn whose limit is at least the number of keys visits what a pass does, in the same order.
pub fn large_turns_are_passes()
    ensures { LargeTurnsArePasses }
{}

/// Where the part of a row after the horizon is the same list, a version after the horizon stands in the one row
/// exactly where it stands in the other.
pub fn versions_after_the_horizon_stand()
    ensures { LateVersionsStand }
{}
