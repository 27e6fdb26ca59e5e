//! A law of the number of held names, stated in `specs/TableStatements.antt`. Calling it does nothing.
ghost use Rattle.lock_name.specs.Locks.{LockState};
ghost use Rattle.lock_table.specs.TableStatements.{NumberHeldTells};

/// Locks have one number of held names at most, and it is 0 exactly where no job holds a name.
pub fn held_names_have_one_number()
    ensures { (s : LockState) → NumberHeldTells s }
{}
