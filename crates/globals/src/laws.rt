//! The laws of the data commands, in the words of references and values.
ghost use Rattle.std.specs.Prelude.{ℕ, Bool, List, Option};
ghost use Rattle.collation.specs.Reference.{Reference, Spot};
ghost use Rattle.collation.specs.Database.{Database};
ghost use Rattle.globals.specs.AnswerStatements.{DescendantsAreUnder, DataTells, OrderTells, QueryTells, NamesTell};
ghost use Rattle.globals.specs.ChangeStatements.{SetSetsOne, KillTakesItsExtent, IncrementSetsTheSum, MergeCopiesSubtree};

/// A descendant of a reference is what is under it and isn't the reference itself.
pub fn descendants_are_under()
    ensures { DescendantsAreUnder }
{}

/// $DATA tells a value by 1 and descendants by 10.
pub fn data_tells_value_and_descendants()
    ensures { (m : Database) (r : Reference) → DataTells m r }
{}

/// $ORDER answers the nearest sibling beyond the start: nothing stands between.
pub fn order_answers_the_nearest_sibling()
    ensures { (forward : Bool) (p : Spot) (m : Database) → OrderTells forward p m }
{}

/// $QUERY answers the nearest node of the name beyond the place: nothing stands between.
pub fn query_answers_the_nearest_node()
    ensures { (forward : Bool) (p : Spot) (m : Database) → QueryTells forward p m }
{}

/// $ORDER of names answers the nearest name that a node has: no other lies between.
pub fn names_tell_the_nearest_name()
    ensures { (forward : Bool) (start : Option (List ℕ)) (m : Database) → NamesTell forward start m }
{}

/// SET changes one reference.
pub fn set_sets_one()
    ensures { SetSetsOne }
{}

/// KILL takes away what is at and under its reference, KVALUE what is at it, KSUBSCRIPTS what is under it, and nothing
/// else.
pub fn kill_takes_its_extent()
    ensures { KillTakesItsExtent }
{}

/// $INCREMENT changes one reference.
pub fn increment_sets_the_sum()
    ensures { IncrementSetsTheSum }
{}

/// MERGE copies node by node, over what was there.
pub fn merge_copies_the_subtree()
    ensures { MergeCopiesSubtree }
{}
