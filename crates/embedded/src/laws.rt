//! A law of the looks, stated in `specs/NameStatements.antt`. Calling it does nothing.
ghost use Rattle.std.specs.Prelude.{ℕ, Bool, List};
ghost use Rattle.collation.specs.Database.{Database};
ghost use Rattle.embedded.specs.NameStatements.{NamesTell};

/// A look for the next name answers one that a node has, and no name that a node has lies between; it answers none
/// where none is left.
pub fn names_are_nearest()
    ensures { (forward : Bool) (start : List ℕ) (m : Database) → NamesTell forward start m }
{}
